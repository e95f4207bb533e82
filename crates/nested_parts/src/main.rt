// Builds a nesting of all four operators over two machines and a counter, performs a list of calls on it, and prints what
// each is answered with; and again with a machine in place of one that answers the same.
#![tactic(auto)]

use anyhow::{anyhow, bail};
use machines::{Counter, Machine};
use nesting::{Numbers, perform_nested};
use parts::{Call, Reply};
use printing::ReplyLine;
use rules::Rule;
use signals::WireSet;

// The wires: START and PAUSE, the counted ITEM, the questions NEITHER and EITHER, their hidden answer, and FULL.
const START: WireSet = WireSet { bits: 1 << 0 };

const PAUSE: u8 = 1;

const ITEM: WireSet = WireSet { bits: 1 << 2 };

const NEITHER: WireSet = WireSet { bits: 1 << 3 };

const EITHER: WireSet = WireSet { bits: 1 << 4 };

const ANSWER: WireSet = WireSet { bits: 1 << 5 };

const FULL: u8 = 6;

// ITEM with PAUSE.
const PAUSED_ITEM: WireSet = WireSet {
    bits: 1 << 1 | 1 << 2,
};

// Off and on: from 0 to 1 on START.
const SWITCH: [Rule; 1] = [Rule {
    from: 0,
    to: 1,
    present: START,
    absent: WireSet::EMPTY,
    emits: WireSet::EMPTY,
}];

// On NEITHER it gives the answer where it is not there: no setting of the answer is consistent.
const CONTRADICTS: Rule = Rule {
    from: 0,
    to: 0,
    present: NEITHER,
    absent: ANSWER,
    emits: ANSWER,
};

// On EITHER it gives the answer where it is there: both settings are consistent.
const REPEATS: Rule = Rule {
    from: 0,
    to: 0,
    present: WireSet {
        bits: 1 << 4 | 1 << 5,
    },
    absent: WireSet::EMPTY,
    emits: ANSWER,
};

const CALLS: [Call; 12] = [
    Call::Step(START),
    Call::Step(ITEM),
    Call::Look(ITEM),
    Call::Step(NEITHER),
    Call::Step(EITHER),
    Call::Step(PAUSED_ITEM),
    Call::Step(ITEM),
    Call::Restart,
    Call::Step(ITEM),
    Call::Step(START),
    Call::Step(ITEM),
    Call::Look(ITEM),
];

// A machine that stands alone, or an error that tells the number of its refusal.
fn machine(states: u8, rules: &[Rule]) -> anyhow::Result<Machine> {
    Machine::new(states, rules).map_err(|refusal| anyhow!("machine refused: {}", refusal.number()))
}

// Performs the calls on a new nesting with these rules inside, and prints a line for each reply.
fn print_nested(rt: &impl Print, rules: &[Rule]) -> anyhow::Result<()> {
    let numbers = Numbers {
        wire: PAUSE,
        stage: 1,
        hidden: ANSWER,
        place: 7,
    };
    let switch = machine(2, &SWITCH)?;
    let asks = machine(1, rules)?;
    let Ok(second) = Counter::new(2, FULL, 2) else {
        bail!("counter refused");
    };
    let mut replies = [Reply::Restarted; CALLS.len()];
    if let Err(refusal) = perform_nested(numbers, switch, asks, second, &CALLS, &mut replies) {
        bail!("nesting refused: {refusal:?}");
    }
    // with the index, from which the call's number is printed
    for (i, reply) in replies.iter().enumerate() {
        rt.print(ReplyLine {
            number: i + 1,
            reply: *reply,
        })?;
    }
    Ok(())
}

fn main(rt: HostRuntime) -> anyhow::Result<()> {
    rt.println(
        "start, item, look at item, neither, either, item in a pause, item, restart, item, start, item, look at item",
    )?;
    print_nested(&rt, &[CONTRADICTS, REPEATS])?;
    rt.println("the same with the rules of the inner machine written the other way round")?;
    print_nested(&rt, &[REPEATS, CONTRADICTS])?;
    Ok(())
}
