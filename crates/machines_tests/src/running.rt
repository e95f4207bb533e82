// Runs: outputs as long as the inputs, longer, shorter, and none.
use crate::example::{A, B, BEFORE, CLOSED, NONE, bit};
use gates::Gate;
use parts::{Fault, RunReport, Staged, run};
use std::test::Fail;

fn whole(ticks: usize) -> RunReport {
    RunReport { ticks, fault: None }
}

// Nothing was stepped. The numbers, and not `SHORT_LIST`: the tests are to show them.
fn refused() -> RunReport {
    RunReport {
        ticks: 0,
        fault: Some(Fault {
            cause: 34,
            place: 0,
            count: 0,
        }),
    }
}

#[test]
fn the_bit_twice(rt: HostRuntime) -> Result<(), Fail> {
    let mut machine = bit()?;
    let mut outputs = [BEFORE; 2];
    assert_eq!(rt; run(&mut machine, &[A, A], &mut outputs), whole(2));
    assert_eq!(rt; outputs, [NONE, B]);
    assert_eq!(rt; machine.current_stage(), 0);
    Ok(())
}

// Places behind the accepted ticks stay.
#[test]
fn longer_outputs(rt: HostRuntime) -> Result<(), Fail> {
    let mut machine = bit()?;
    let mut outputs = [BEFORE; 5];
    assert_eq!(rt; run(&mut machine, &[A, NONE, A], &mut outputs), whole(3));
    assert_eq!(rt; outputs, [NONE, NONE, B, BEFORE, BEFORE]);
    Ok(())
}

// One place too few: nothing is stepped and nothing written.
#[test]
fn shorter_outputs(rt: HostRuntime) -> Result<(), Fail> {
    let mut machine = bit()?;
    let mut outputs = [BEFORE; 2];
    assert_eq!(rt; run(&mut machine, &[A, A, A], &mut outputs), refused());
    assert_eq!(rt; outputs, [BEFORE, BEFORE]);
    assert_eq!(rt; machine.current_stage(), 0);
    Ok(())
}

#[test]
fn no_outputs(rt: HostRuntime) -> Result<(), Fail> {
    let mut machine = bit()?;
    assert_eq!(rt; run(&mut machine, &[], &mut []), whole(0));
    assert_eq!(rt; run(&mut machine, &[A], &mut []), refused());
    assert_eq!(rt; machine.current_stage(), 0);
    Ok(())
}

#[test]
fn no_inputs(rt: HostRuntime) -> Result<(), Fail> {
    let mut machine = bit()?;
    let mut outputs = [BEFORE; 1];
    assert_eq!(rt; run(&mut machine, &[], &mut outputs), whole(0));
    assert_eq!(rt; outputs, [BEFORE]);
    Ok(())
}

// A second run goes on where the first one ended.
#[test]
fn one_run_after_another(rt: HostRuntime) -> Result<(), Fail> {
    let mut machine = bit()?;
    let mut outputs = [BEFORE; 1];
    assert_eq!(rt; run(&mut machine, &[A], &mut outputs), whole(1));
    assert_eq!(rt; outputs, [NONE]);
    assert_eq!(rt; machine.current_stage(), 1);
    assert_eq!(rt; run(&mut machine, &[A], &mut outputs), whole(1));
    assert_eq!(rt; outputs, [B]);
    Ok(())
}

// The third input is refused: two ticks are told with the fault, and their outputs alone are written.
#[test]
fn to_the_first_fault(rt: HostRuntime) {
    let mut gate = Gate { fault: CLOSED };
    let mut outputs = [BEFORE; 5];
    let closed = RunReport {
        ticks: 2,
        fault: Some(CLOSED),
    };
    assert_eq!(rt;
        run(&mut gate, &[NONE, B, A, NONE, A], &mut outputs),
        closed
    );
    assert_eq!(rt; outputs, [NONE, NONE, BEFORE, BEFORE, BEFORE]);
}

// Refused at once, by its first tick.
#[test]
fn no_tick_accepted(rt: HostRuntime) {
    let mut gate = Gate { fault: CLOSED };
    let mut outputs = [BEFORE; 1];
    let closed = RunReport {
        ticks: 0,
        fault: Some(CLOSED),
    };
    assert_eq!(rt; run(&mut gate, &[A], &mut outputs), closed);
    assert_eq!(rt; outputs, [BEFORE]);
}
