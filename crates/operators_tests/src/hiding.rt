// Encapsulation: every setting is tried, and exactly one has to be consistent.
use crate::example::{A, B, C, END, FIRST, NONE, bit, on, without};
use gates::Gate;
use machines::{Counter, Machine};
use operators::{Encapsulation, Parallel, Refinement};
use parts::{Fault, Part};
use settings::Hidden;
use signals::WireSet;
use std::test::Fail;

fn fault(cause: u8, place: u16, count: u16) -> Result<WireSet, Fault> {
    Err(Fault {
        cause,
        place,
        count,
    })
}

// Three bits, from A to B to C to END, with B and C hidden: END comes at each eighth A.
#[test]
fn three_bits(rt: HostRuntime) -> Result<(), Fail> {
    let bits = Parallel::new(Parallel::new(bit(A, B)?, bit(B, C)?), bit(C, END)?);
    let mut counter = Encapsulation::new(B.union(C), 4, bits)?;
    assert_eq!(rt; counter.wires_read(), A);
    assert_eq!(rt; counter.wires_emitted(), END);
    for _ in 0..2u8 {
        for _ in 1..8u8 {
            assert_eq!(rt; counter.step(A), Ok(NONE));
        }
        assert_eq!(rt; counter.step(NONE), Ok(NONE));
        assert_eq!(rt; counter.step(A), Ok(END));
    }
    assert_eq!(rt; counter.step(A), Ok(NONE));
    counter.restart();
    for _ in 1..8u8 {
        assert_eq!(rt; counter.step(A), Ok(NONE));
    }
    assert_eq!(rt; counter.look(A), Ok(END));
    Ok(())
}

// Wires that come from outside are not let through where they are hidden.
#[test]
fn hidden_from_outside(rt: HostRuntime) -> Result<(), Fail> {
    let mut part = Encapsulation::new(B, 0, bit(B, C)?)?;
    assert_eq!(rt; part.step(B), Ok(NONE));
    assert_eq!(rt; part.step(B), Ok(NONE));
    Ok(())
}

// P waits for A and tells B, Q waits for B and tells A, both on the wire 2.
#[test]
fn two_that_wait_for_each_other(rt: HostRuntime) -> Result<(), Fail> {
    let p = Machine::new(2, &[on(WireSet { bits: 0b101 }, 0, 1, B)])?;
    let q = Machine::new(2, &[on(WireSet { bits: 0b110 }, 0, 1, A)])?;
    let mut part = Encapsulation::new(A.union(B), 3, Parallel::new(p, q))?;
    assert_eq!(rt; part.step(C), fault(42, 3, 2));
    assert_eq!(rt; part.step(NONE), Ok(NONE));
    assert_eq!(rt; part.look(C), fault(42, 3, 2));
    Ok(())
}

// Q tells A where B is not there: no setting is consistent.
#[test]
fn one_that_contradicts(rt: HostRuntime) -> Result<(), Fail> {
    let p = Machine::new(2, &[on(WireSet { bits: 0b101 }, 0, 1, B)])?;
    let q = Machine::new(2, &[without(C, B, 0, 1, A)])?;
    let mut part = Encapsulation::new(A.union(B), 3, Parallel::new(p, q))?;
    assert_eq!(rt; part.step(C), fault(41, 3, 0));
    assert_eq!(rt; part.step(NONE), Ok(NONE));
    Ok(())
}

// P asks by A whatever B is, and hears the answer B in the same tick.
#[test]
fn question_and_answer(rt: HostRuntime) -> Result<(), Fail> {
    let p = Machine::new(
        2,
        &[
            on(WireSet { bits: 0b110 }, 0, 1, A),
            without(C, B, 0, 0, A),
            on(C, 1, 1, END),
        ],
    )?;
    let q = Machine::new(1, &[on(A, 0, 0, B)])?;
    let mut part = Encapsulation::new(A.union(B), 2, Parallel::new(p, q))?;
    assert_eq!(rt; part.step(C), Ok(NONE));
    // P is in 1
    assert_eq!(rt; part.step(C), Ok(END));
    Ok(())
}

// The inner one has two consistent settings where the outer one sets the wire 2: every input has the inner fault.
#[test]
fn the_inner_fault_comes_up(rt: HostRuntime) -> Result<(), Fail> {
    let machine = Machine::new(1, &[on(WireSet { bits: 0b101 }, 0, 0, A)])?;
    let mut part = Encapsulation::new(C, 2, Encapsulation::new(A, 1, machine)?)?;
    assert_eq!(rt; part.step(NONE), fault(42, 1, 2));
    assert_eq!(rt; part.step(B), fault(42, 1, 2));
    Ok(())
}

// A gate that refuses the hidden wire under a setting is the fault of the whole.
#[test]
fn a_refusing_setting_is_not_skipped(rt: HostRuntime) -> Result<(), Fail> {
    let mut part = Encapsulation::new(A, 5, Gate { fault: FIRST })?;
    assert_eq!(rt; part.step(NONE), Err(FIRST));
    let mut other = Encapsulation::new(B, 5, Gate { fault: FIRST })?;
    assert_eq!(rt; other.step(NONE), Ok(NONE));
    assert_eq!(rt; other.step(A), Err(FIRST));
    Ok(())
}

// At most 12 wires; a refused making hands the part back as it was.
#[test]
fn twelve_hidden_wires(rt: HostRuntime) -> Result<(), Fail> {
    let mut part = Encapsulation::new(WireSet { bits: 0xfff0 }, 0, bit(A, B)?)?;
    assert_eq!(rt; part.step(A), Ok(NONE));
    let mut machine = bit(A, B)?;
    assert_eq!(rt; machine.step(A), Ok(NONE));
    let Err(unmade) = Encapsulation::new(WireSet { bits: 0x1_fff0 }, 0, machine) else {
        return Err(Fail::new("13 wires were hidden"));
    };
    // the number, and not the case: it is what people know, and the test is to show it
    assert_eq!(rt; unmade.refusal.number(), 16);
    assert_eq!(rt; unmade.inside.look(A), Ok(B));
    Ok(())
}

// A counter inside: the bit's B is counted and hidden, and C comes at each fourth A. Hidden, its own wire does not come
// out.
#[test]
fn a_counter_inside(rt: HostRuntime) -> Result<(), Fail> {
    let counted = Parallel::new(bit(A, B)?, Counter::new(1, 2, 2)?);
    let mut part = Encapsulation::new(B, 0, counted)?;
    for _ in 1..4u8 {
        assert_eq!(rt; part.step(A), Ok(NONE));
    }
    assert_eq!(rt; part.step(A), Ok(C));
    let mut silent = Encapsulation::new(B, 0, Counter::new(0, 1, 2)?)?;
    assert_eq!(rt; silent.step(A), Ok(NONE));
    assert_eq!(rt; silent.step(A), Ok(NONE));
    assert_eq!(rt; silent.wires_emitted(), NONE);
    Ok(())
}

// Stage 1 holds the three bits, whose hidden END leads back to stage 0, and tells DONE. STOP leads back where END is not
// there.
#[test]
fn an_inside_that_leaves_its_stage(rt: HostRuntime) -> Result<(), Fail> {
    let start = WireSet { bits: 16 };
    let done = WireSet { bits: 32 };
    let stop = WireSet { bits: 64 };
    let bits = Parallel::new(Parallel::new(bit(A, B)?, bit(B, C)?), bit(C, END)?);
    let counter = Encapsulation::new(B.union(C), 4, bits)?;
    let rules = [
        on(start, 0, 1, NONE),
        on(END, 1, 0, done),
        without(stop, END, 1, 0, NONE),
    ];
    let refined = Refinement::new(1, Machine::new(2, &rules)?, counter);
    let mut part = Encapsulation::new(END, 6, refined)?;
    // the bits do not see the A of the tick that enters
    assert_eq!(rt; part.step(start.union(A)), Ok(NONE));
    for _ in 1..8u8 {
        assert_eq!(rt; part.step(A), Ok(NONE));
    }
    // END and STOP in one tick: END leads back
    assert_eq!(rt; part.step(A.union(stop)), Ok(done));
    // in stage 0 the bits sleep
    assert_eq!(rt; part.step(A), Ok(NONE));
    // entered again, they count from 0
    assert_eq!(rt; part.step(start), Ok(NONE));
    for _ in 1..8u8 {
        assert_eq!(rt; part.step(A), Ok(NONE));
    }
    assert_eq!(rt; part.step(A), Ok(done));
    Ok(())
}

// The settings of A and C by rising value; a copy of what is left goes on by itself.
#[test]
fn settings_copied_half_way(rt: HostRuntime) -> Result<(), Fail> {
    let mut settings = Hidden::try_from(A.union(C))?.settings();
    assert_eq!(rt; settings.next(), Some(NONE));
    let mut copied = settings;
    assert_eq!(rt; settings.next(), Some(A));
    assert_eq!(rt; settings.next(), Some(C));
    assert_eq!(rt; copied.next(), Some(A));
    assert_eq!(rt; settings.next(), Some(A.union(C)));
    assert_eq!(rt; settings.next(), None);
    assert_eq!(rt; copied.next(), Some(C));
    Ok(())
}
