// Machines as staged parts: stages, moves and their prediction; and which rule fires.
use crate::example::{A, B, NONE, bit, on_a};
use machines::{Machine, react};
use parts::{Part, Staged};
use rules::Rule;
use signals::WireSet;
use std::test::Fail;

// A move tells the stage that it leads to, and a prediction tells the same and alters nothing.
#[test]
fn the_bit_moves(rt: HostRuntime) -> Result<(), Fail> {
    let mut machine = bit()?;
    assert_eq!(rt; machine.predict(A), Ok((NONE, 1, true)));
    assert_eq!(rt; machine.current_stage(), 0);
    assert_eq!(rt; machine.make_move(A), Ok((NONE, 1, true)));
    assert_eq!(rt; machine.current_stage(), 1);
    // no rule fires: the stage stays, and that is no written rule
    assert_eq!(rt; machine.make_move(B), Ok((NONE, 1, false)));
    assert_eq!(rt; machine.predict(A), Ok((B, 0, true)));
    assert_eq!(rt; machine.look(A), Ok(B));
    machine.start_over();
    assert_eq!(rt; machine.current_stage(), 0);
    assert_eq!(rt; machine.make_move(A), Ok((NONE, 1, true)));
    machine.restart();
    assert_eq!(rt; machine.current_stage(), 0);
    Ok(())
}

// A loop from a stage to itself is a written rule.
#[test]
fn a_loop_is_written(rt: HostRuntime) -> Result<(), Fail> {
    let mut machine = Machine::new(1, &[on_a(0, 0, NONE)])?;
    assert_eq!(rt; machine.make_move(A), Ok((NONE, 0, true)));
    assert_eq!(rt; machine.make_move(NONE), Ok((NONE, 0, false)));
    Ok(())
}

// All of present and none of absent: A and B are wanted, wire 2 is not.
#[test]
fn when_a_rule_fires(rt: HostRuntime) {
    let rule = Rule {
        from: 1,
        to: 0,
        present: WireSet { bits: 0b011 },
        absent: WireSet { bits: 0b100 },
        emits: NONE,
    };
    assert!(rt; rule.fires(1, WireSet { bits: 0b011 }));
    assert!(rt; rule.fires(1, WireSet { bits: 0b1011 }));
    assert!(rt; !rule.fires(1, WireSet { bits: 0b001 }));
    assert!(rt; !rule.fires(1, WireSet { bits: 0b010 }));
    assert!(rt; !rule.fires(1, WireSet { bits: 0b111 }));
    assert!(rt; !rule.fires(0, WireSet { bits: 0b011 }));
}

// Of rules that are in no accord the first one fires; none fires from a state that does not exist.
#[test]
fn the_first_that_fires(rt: HostRuntime) {
    let rules = [on_a(1, 0, NONE), on_a(0, 1, B), on_a(0, 0, A)];
    assert_eq!(rt; react(&rules, 0, A), (B, 1, true));
    assert_eq!(rt; react(&rules, 1, A), (NONE, 0, true));
    assert_eq!(rt; react(&rules, 200, A), (NONE, 200, false));
    assert_eq!(rt; react(&[], 0, A), (NONE, 0, false));
}

// The wires of all rules: present and absent ones are read.
#[test]
fn wires_of_a_machine(rt: HostRuntime) -> Result<(), Fail> {
    let rule = Rule {
        from: 0,
        to: 0,
        present: NONE,
        absent: WireSet { bits: 0b1000 },
        emits: WireSet { bits: 0b0100 },
    };
    let machine = Machine::new(2, &[on_a(1, 0, B), rule])?;
    assert_eq!(rt; machine.wires_read(), WireSet { bits: 0b1001 });
    assert_eq!(rt; machine.wires_emitted(), WireSet { bits: 0b0110 });
    assert_eq!(rt; machine.wires_read_by_moves(), WireSet { bits: 0b1001 });
    assert_eq!(rt; machine.wires_emitted_by_moves(), WireSet { bits: 0b0110 });
    Ok(())
}
