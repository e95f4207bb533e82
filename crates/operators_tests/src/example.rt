// Machines and wires that the examples share. `machines_tests` has its own: in a crate below both they would be public
// items, with contracts and must-fail edits for a few constants of tests.
use machines::Machine;
use parts::Fault;
use rules::Rule;
use signals::WireSet;
use std::test::Fail;

// The wires of the examples, and none of them.
pub(crate) const A: WireSet = WireSet { bits: 1 };

pub(crate) const B: WireSet = WireSet { bits: 2 };

pub(crate) const C: WireSet = WireSet { bits: 4 };

pub(crate) const END: WireSet = WireSet { bits: 8 };

pub(crate) const NONE: WireSet = WireSet::EMPTY;

// Two faults, of gates that refuse A.
pub(crate) const FIRST: Fault = Fault {
    cause: 90,
    place: 7,
    count: 2,
};

pub(crate) const SECOND: Fault = Fault {
    cause: 91,
    place: 8,
    count: 3,
};

// A rule on wires that are there.
pub(crate) fn on(present: WireSet, from: u8, to: u8, emits: WireSet) -> Rule {
    without(present, NONE, from, to, emits)
}

// A rule on wires that are there and others that are not.
pub(crate) fn without(present: WireSet, absent: WireSet, from: u8, to: u8, emits: WireSet) -> Rule {
    Rule {
        from,
        to,
        present,
        absent,
        emits,
    }
}

// A bit: from 0 to 1 on one wire; from 1 to 0 on it, emitting another.
pub(crate) fn bit(input: WireSet, output: WireSet) -> Result<Machine, Fail> {
    Ok(Machine::new(2, &[on(input, 0, 1, NONE), on(input, 1, 0, output)])?)
}
