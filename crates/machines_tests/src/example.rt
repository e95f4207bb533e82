// Machines and wires that the examples share. `operators_tests` has its own: in a crate below both they would be public
// items, with contracts and must-fail edits for a few constants of tests.
use machines::Machine;
use parts::Fault;
use rules::Rule;
use signals::WireSet;
use std::test::Fail;

// The wires A and B, and neither.
pub(crate) const A: WireSet = WireSet { bits: 1 };

pub(crate) const B: WireSet = WireSet { bits: 2 };

pub(crate) const NONE: WireSet = WireSet::EMPTY;

// A set that no part of the examples emits: what stands in a list before a run.
pub(crate) const BEFORE: WireSet = WireSet { bits: 0xee };

// The fault of a gate that refuses A.
pub(crate) const CLOSED: Fault = Fault {
    cause: 90,
    place: 7,
    count: 2,
};

// A rule on the wire A alone.
pub(crate) fn on_a(from: u8, to: u8, emits: WireSet) -> Rule {
    Rule {
        from,
        to,
        present: A,
        absent: NONE,
        emits,
    }
}

// The bit: from 0 to 1 on A; from 1 to 0 on A, emitting B.
pub(crate) fn bit() -> Result<Machine, Fail> {
    let machine = Machine::new(2, &[on_a(0, 1, NONE), on_a(1, 0, B)])?;
    Ok(machine)
}
