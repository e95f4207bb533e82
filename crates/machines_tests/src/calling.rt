// Lists of calls: looks, steps and restarts in any order.
use crate::example::{A, B, CLOSED, NONE, bit};
use gates::Gate;
use parts::{Call, Fault, Reply, Staged, perform, perform_call};
use signals::WireSet;
use std::test::Fail;

fn answer(outputs: WireSet) -> Reply {
    Reply::Answer(Ok(outputs))
}

#[test]
fn calls_on_the_bit(rt: HostRuntime) -> Result<(), Fail> {
    let mut machine = bit()?;
    let calls = [
        Call::Look(A),
        Call::Step(A),
        Call::Look(A),
        Call::Restart,
        Call::Look(A),
        Call::Step(A),
        Call::Step(A),
    ];
    let mut replies = [Reply::Restarted; 8];
    assert_eq!(rt; perform(&mut machine, &calls, &mut replies), Ok(()));
    let expected = [
        answer(NONE),
        answer(NONE),
        answer(B),
        Reply::Restarted,
        answer(NONE),
        answer(NONE),
        answer(B),
        // behind the calls
        Reply::Restarted,
    ];
    assert_eq!(rt; replies, expected);
    assert_eq!(rt; machine.current_stage(), 0);
    Ok(())
}

// The list of calls does not restart by itself: it goes on where earlier calls led.
#[test]
fn calls_go_on(rt: HostRuntime) -> Result<(), Fail> {
    let mut machine = bit()?;
    assert_eq!(rt; perform_call(&mut machine, Call::Step(A)), answer(NONE));
    let mut replies = [Reply::Restarted; 1];
    assert_eq!(rt;
        perform(&mut machine, &[Call::Step(A)], &mut replies),
        Ok(())
    );
    assert_eq!(rt; replies, [answer(B)]);
    Ok(())
}

// One place too few: nothing is performed and nothing written.
#[test]
fn too_few_places(rt: HostRuntime) -> Result<(), Fail> {
    let mut machine = bit()?;
    let mut replies = [Reply::Restarted; 1];
    // the numbers, and not `SHORT_LIST`: the test is to show them
    let short = Fault {
        cause: 34,
        place: 0,
        count: 0,
    };
    assert_eq!(rt;
        perform(&mut machine, &[Call::Step(A), Call::Step(A)], &mut replies),
        Err(short)
    );
    assert_eq!(rt; replies, [Reply::Restarted]);
    assert_eq!(rt; machine.current_stage(), 0);
    assert_eq!(rt; perform(&mut machine, &[], &mut []), Ok(()));
    Ok(())
}

// A refused step is a reply like any other, and the calls behind it are performed.
#[test]
fn refused_calls(rt: HostRuntime) {
    let mut gate = Gate { fault: CLOSED };
    let closed = Reply::Answer(Err(CLOSED));
    let mut replies = [Reply::Restarted; 4];
    let calls = [Call::Step(A), Call::Look(A), Call::Step(B), Call::Restart];
    assert_eq!(rt; perform(&mut gate, &calls, &mut replies), Ok(()));
    assert_eq!(rt; replies, [closed, closed, answer(NONE), Reply::Restarted]);
}
