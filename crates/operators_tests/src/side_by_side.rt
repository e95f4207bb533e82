// Parallel: outputs joined, the left fault first, and neither part moves unless both accept.
use crate::example::{A, B, C, FIRST, NONE, SECOND, bit};
use gates::Gate;
use machines::Counter;
use operators::Parallel;
use parts::Part;
use signals::WireSet;
use std::test::Fail;

// The bit emits B at the second A, the counter C at each third.
#[test]
fn a_machine_and_a_counter(rt: HostRuntime) -> Result<(), Fail> {
    let mut both = Parallel::new(bit(A, B)?, Counter::new(0, 2, 3)?);
    assert_eq!(rt; both.wires_read(), A);
    assert_eq!(rt; both.wires_emitted(), WireSet { bits: 0b110 });
    assert_eq!(rt; both.step(A), Ok(NONE));
    assert_eq!(rt; both.step(A), Ok(B));
    assert_eq!(rt; both.look(A), Ok(C));
    assert_eq!(rt; both.step(A), Ok(C));
    assert_eq!(rt; both.step(A), Ok(B));
    both.restart();
    assert_eq!(rt; both.step(A), Ok(NONE));
    assert_eq!(rt; both.step(A), Ok(B));
    Ok(())
}

// Both are restarted by the making.
#[test]
fn made_anew(rt: HostRuntime) -> Result<(), Fail> {
    let mut machine = bit(A, B)?;
    assert_eq!(rt; machine.step(A), Ok(NONE));
    let mut both = Parallel::new(machine, Counter::new(0, 2, 2)?);
    assert_eq!(rt; both.step(A), Ok(NONE));
    assert_eq!(rt; both.step(A), Ok(WireSet { bits: 0b110 }));
    Ok(())
}

#[test]
fn the_left_fault_first(rt: HostRuntime) {
    let mut both = Parallel::new(Gate { fault: FIRST }, Gate { fault: SECOND });
    assert_eq!(rt; both.step(A), Err(FIRST));
    assert_eq!(rt; both.step(B), Ok(NONE));
}

// The right part refuses A, so the left one does not move, wherever it stands.
#[test]
fn nothing_moves_unless_both_accept(rt: HostRuntime) -> Result<(), Fail> {
    let mut both = Parallel::new(bit(WireSet { bits: 3 }, C)?, Gate { fault: SECOND });
    assert_eq!(rt; both.step(WireSet { bits: 3 }), Err(SECOND));
    assert_eq!(rt; both.step(NONE), Ok(NONE));
    let mut other = Parallel::new(Gate { fault: FIRST }, bit(A, B)?);
    assert_eq!(rt; other.step(A), Err(FIRST));
    assert_eq!(rt; other.step(A), Err(FIRST));
    Ok(())
}
