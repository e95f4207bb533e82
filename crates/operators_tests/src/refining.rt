// Refinement: an inside that is awake in one stage of a staged part.
use crate::example::{A, B, C, END, FIRST, NONE, bit, on};
use gates::Gate;
use machines::{Counter, Machine};
use operators::Refinement;
use parts::{Part, Staged};
use signals::WireSet;
use std::test::Fail;

// A switch: from 0 to 1 on C, and back on C, emitting END.
fn switch() -> Result<Machine, Fail> {
    Ok(Machine::new(2, &[on(C, 0, 1, NONE), on(C, 1, 0, END)])?)
}

// The bit reacts in stage 1 alone, also in the tick that leaves it, and starts over.
#[test]
fn awake_in_stage_1(rt: HostRuntime) -> Result<(), Fail> {
    let mut part = Refinement::new(1, switch()?, bit(A, B)?);
    assert_eq!(rt; part.wires_read(), WireSet { bits: 0b0101 });
    assert_eq!(rt; part.wires_emitted(), WireSet { bits: 0b1010 });
    // asleep
    assert_eq!(rt; part.step(A), Ok(NONE));
    // entering: the bit does not see the A of this tick
    assert_eq!(rt; part.step(WireSet { bits: 0b0101 }), Ok(NONE));
    assert_eq!(rt; part.current_stage(), 1);
    assert_eq!(rt; part.step(A), Ok(NONE));
    // leaving: the bit reacts to this A, and emits
    assert_eq!(rt;
        part.predict(WireSet { bits: 0b0101 }),
        Ok((WireSet { bits: 0b1010 }, 0, true))
    );
    assert_eq!(rt;
        part.make_move(WireSet { bits: 0b0101 }),
        Ok((WireSet { bits: 0b1010 }, 0, true))
    );
    // entering again: the bit started over
    assert_eq!(rt; part.step(C), Ok(NONE));
    assert_eq!(rt; part.step(A), Ok(NONE));
    assert_eq!(rt; part.step(A), Ok(B));
    Ok(())
}

// A rule from 0 to 0 starts the inside over: A, the loop, A emit nothing.
#[test]
fn a_loop_starts_over(rt: HostRuntime) -> Result<(), Fail> {
    let machine = Machine::new(1, &[on(C, 0, 0, NONE)])?;
    let mut part = Refinement::new(0, machine, bit(A, B)?);
    assert_eq!(rt; part.step(A), Ok(NONE));
    assert_eq!(rt; part.step(C), Ok(NONE));
    assert_eq!(rt; part.step(A), Ok(NONE));
    assert_eq!(rt; part.step(A), Ok(B));
    Ok(())
}

// The staged part's stage is 0 for ever: an inside at stage 7 never wakes.
#[test]
fn a_stage_that_does_not_exist(rt: HostRuntime) -> Result<(), Fail> {
    let mut part = Refinement::new(7, switch()?, Gate { fault: FIRST });
    assert_eq!(rt; part.step(A), Ok(NONE));
    assert_eq!(rt; part.step(C), Ok(NONE));
    assert_eq!(rt; part.step(A), Ok(NONE));
    Ok(())
}

// An inside that refuses keeps the staged part from moving.
#[test]
fn nothing_moves_unless_both_accept(rt: HostRuntime) -> Result<(), Fail> {
    let mut part = Refinement::new(0, switch()?, Gate { fault: FIRST });
    assert_eq!(rt; part.make_move(WireSet { bits: 0b0101 }), Err(FIRST));
    assert_eq!(rt; part.current_stage(), 0);
    assert_eq!(rt; part.make_move(C), Ok((NONE, 1, true)));
    // asleep it refuses nothing
    assert_eq!(rt; part.make_move(A), Ok((NONE, 1, false)));
    Ok(())
}

// A refinement is refined again: stage 1 holds a counter beside the bit.
#[test]
fn refined_again(rt: HostRuntime) -> Result<(), Fail> {
    let inner = Refinement::new(1, switch()?, bit(A, B)?);
    let mut part = Refinement::new(0, inner, Counter::new(0, 4, 2)?);
    assert_eq!(rt; part.step(A), Ok(NONE));
    assert_eq!(rt; part.step(A), Ok(WireSet { bits: 0b1_0000 }));
    assert_eq!(rt; part.step(C), Ok(NONE));
    assert_eq!(rt; part.step(A), Ok(NONE));
    assert_eq!(rt; part.step(A), Ok(B));
    part.restart();
    assert_eq!(rt; part.current_stage(), 0);
    assert_eq!(rt; part.step(A), Ok(NONE));
    assert_eq!(rt; part.step(A), Ok(WireSet { bits: 0b1_0000 }));
    Ok(())
}
