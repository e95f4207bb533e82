// Inhibition: while its wire is there it emits nothing, and its inside does not move.
use crate::example::{A, B, C, FIRST, NONE, bit};
use gates::Gate;
use machines::{Counter, Machine};
use operators::Inhibition;
use parts::Part;
use signals::WireSet;
use std::test::Fail;

// A with the wire 2 moves nothing.
#[test]
fn a_bit_asleep(rt: HostRuntime) -> Result<(), Fail> {
    let mut part = Inhibition::new(2, bit(A, B)?)?;
    assert_eq!(rt; part.wires_read(), WireSet { bits: 0b101 });
    assert_eq!(rt; part.wires_emitted(), B);
    assert_eq!(rt; part.step(A), Ok(NONE));
    assert_eq!(rt; part.step(WireSet { bits: 0b101 }), Ok(NONE));
    assert_eq!(rt; part.look(WireSet { bits: 0b101 }), Ok(NONE));
    assert_eq!(rt; part.step(A), Ok(B));
    Ok(())
}

#[test]
fn a_counter_asleep(rt: HostRuntime) -> Result<(), Fail> {
    let mut part = Inhibition::new(2, Counter::new(0, 1, 2)?)?;
    assert_eq!(rt; part.step(A), Ok(NONE));
    assert_eq!(rt; part.step(C), Ok(NONE));
    assert_eq!(rt; part.step(A), Ok(B));
    part.restart();
    assert_eq!(rt; part.step(A), Ok(NONE));
    Ok(())
}

// Asleep it refuses nothing.
#[test]
fn a_gate_asleep(rt: HostRuntime) -> Result<(), Fail> {
    let mut part = Inhibition::new(2, Gate { fault: FIRST })?;
    assert_eq!(rt; part.step(A), Err(FIRST));
    assert_eq!(rt; part.step(WireSet { bits: 0b101 }), Ok(NONE));
    Ok(())
}

// A refused making hands the part back as it was.
#[test]
fn wire_64(rt: HostRuntime) -> Result<(), Fail> {
    let mut machine = bit(A, B)?;
    assert_eq!(rt; machine.step(A), Ok(NONE));
    let Err(unmade) = Inhibition::new(64, machine) else {
        return Err(Fail::new("wire 64 was taken"));
    };
    // the number, and not the case: it is what people know, and the test is to show it
    assert_eq!(rt; unmade.refusal.number(), 37);
    assert_eq!(rt; unmade.inside.look(A), Ok(B));
    Ok(())
}
