// One nesting of all four operators: what is asked where it is made, in order, and what its calls are answered with.
use crate::example::{A, B, C, END, NONE, bit, on};
use machines::{Counter, Machine};
use nesting::{NestRefusal, Numbers, perform_nested};
use operators::OperatorRefusal;
use parts::{Call, Fault, Reply};
use signals::WireSet;
use std::test::Fail;

fn answer(outputs: WireSet) -> Reply {
    Reply::Answer(Ok(outputs))
}

// A machine that END leads from 0 to 1, refined there by a bit beside a counter of A; B is hidden.
fn refused(
    wire: u8,
    hidden: u64,
    calls: &[Call],
    replies: &mut [Reply],
) -> Result<Option<NestRefusal>, Fail> {
    let numbers = Numbers {
        wire,
        stage: 1,
        hidden: WireSet { bits: hidden },
        place: 2,
    };
    let staged = Machine::new(2, &[on(END, 0, 1, NONE)])?;
    let made = perform_nested(
        numbers,
        staged,
        bit(A, B)?,
        Counter::new(0, 2, 2)?,
        calls,
        replies,
    );
    Ok(made.err())
}

// The hidden wires are asked for first, then the wire that inhibits, and then the room for replies; nothing is written.
#[test]
fn refusals_in_order(rt: HostRuntime) -> Result<(), Fail> {
    let before = answer(B);
    let mut replies = [before; 1];
    let calls = [Call::Step(A), Call::Step(A)];
    let hidden = Some(NestRefusal::NotMade(OperatorRefusal::TooManyHidden));
    assert_eq!(rt; refused(64, 0x1fff, &calls, &mut replies)?, hidden);
    let wire = Some(NestRefusal::NotMade(OperatorRefusal::Wire));
    assert_eq!(rt; refused(64, 0x0fff, &calls, &mut replies)?, wire);
    // the numbers, and not `SHORT_LIST`: the test is to show them
    let short = Some(NestRefusal::ShortList(Fault {
        cause: 34,
        place: 0,
        count: 0,
    }));
    assert_eq!(rt; refused(63, 2, &calls, &mut replies)?, short);
    assert_eq!(rt; replies, [before]);
    Ok(())
}

// In stage 1 the counter emits C at each second A, and the bit's B is hidden. The wire 6 inhibits; a restart begins anew.
#[test]
fn calls_on_the_nesting(rt: HostRuntime) -> Result<(), Fail> {
    let mut replies = [answer(END); 9];
    let calls = [
        Call::Step(A),
        Call::Step(END),
        Call::Step(A),
        Call::Step(WireSet { bits: 0b100_0001 }),
        Call::Look(A),
        Call::Step(A),
        Call::Restart,
        Call::Step(A),
    ];
    assert_eq!(rt; refused(6, 2, &calls, &mut replies)?, None);
    let expected = [
        answer(NONE),
        answer(NONE),
        answer(NONE),
        answer(NONE),
        answer(C),
        answer(C),
        Reply::Restarted,
        answer(NONE),
        // behind the calls
        answer(END),
    ];
    assert_eq!(rt; replies, expected);
    Ok(())
}
