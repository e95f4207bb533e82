// Builds a machine and a counter, runs both over the same ticks, performs a list of calls on the machine, and prints
// what each tick and each call is answered with.
#![tactic(auto)]

use machines::{Counter, Machine};
use parts::{Call, Part, Reply, perform, run};
use printing::{RefusedLine, ReplyLine, TickLine};
use rules::Rule;
use signals::WireSet;
use std::io;

// The wires A and B, and neither. They are the program's own, as in the tests: in a crate below they would be public items,
// with contracts and must-fail edits for a few constants.
const A: WireSet = WireSet { bits: 1 };

const B: WireSet = WireSet { bits: 2 };

const NONE: WireSet = WireSet::EMPTY;

const TICKS: [WireSet; 8] = [A, A, NONE, A, A, NONE, A, A];

const CALLS: [Call; 5] = [
    Call::Step(A),
    Call::Look(A),
    Call::Look(NONE),
    Call::Restart,
    Call::Look(A),
];

// From 0 to 1 on A; from 1 to 0 on A, emitting B.
const BIT: [Rule; 2] = [
    Rule {
        from: 0,
        to: 1,
        present: A,
        absent: NONE,
        emits: NONE,
    },
    Rule {
        from: 1,
        to: 0,
        present: A,
        absent: NONE,
        emits: B,
    },
];

// Runs a part over the ticks, and prints a line for each accepted one and for the fault that ended the run.
fn print_run<P: Part>(rt: &impl Print, part: &mut P, outputs: &mut [WireSet]) -> io::Result<()> {
    let report = run(part, &TICKS, outputs);
    // with the index, from which the tick's number is printed
    for (i, set) in outputs.iter().take(report.ticks).enumerate() {
        rt.print(TickLine {
            tick: i + 1,
            outputs: *set,
        })?;
    }
    let Some(fault) = report.fault else {
        return Ok(());
    };
    rt.print(RefusedLine {
        tick: report.ticks + 1,
        fault,
    })
}

// Performs the calls on a part, and prints a line for each reply.
fn print_calls<P: Part>(rt: &impl Print, part: &mut P) -> io::Result<()> {
    let mut replies = [Reply::Restarted; CALLS.len()];
    if let Err(fault) = perform(part, &CALLS, &mut replies) {
        return rt.print(RefusedLine { tick: 1, fault });
    }
    // with the index, from which the reply's number is printed
    for (i, reply) in replies.iter().enumerate() {
        rt.print(ReplyLine {
            number: i + 1,
            reply: *reply,
        })?;
    }
    Ok(())
}

fn print_both(rt: &impl Print) -> anyhow::Result<()> {
    let mut bit = Machine::new(2, &BIT).unwrap();
    rt.println("machine: from 0 to 1 on wire 0; from 1 to 0 on wire 0, emitting wire 1")?;
    print_run(rt, &mut bit, &mut [NONE; TICKS.len()])?;
    rt.println("the same into seven places")?;
    print_run(rt, &mut bit, &mut [NONE; 7])?;
    rt.println(
        "calls on it: step with wire 0, look at wire 0, look at none, restart, look at wire 0",
    )?;
    print_calls(rt, &mut bit)?;
    let mut third = Counter::new(0, 2, 3).unwrap();
    rt.println("counter: wire 2 at each third tick with wire 0")?;
    print_run(rt, &mut third, &mut [NONE; TICKS.len()])?;
    Ok(())
}

fn main(rt: HostRuntime) -> anyhow::Result<()> {
    print_both(&rt)
}
