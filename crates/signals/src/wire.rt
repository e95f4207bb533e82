// Wires.
ghost use Rattle.std.specs.Prelude.{◌≡◌, ◌^◌};
ghost use Rattle.signals.specs.Wires.{Numbers};

use crate::wire_set::{WIRES, WireSet};
use std::marker::Model;

// A wire, by its number, which is 0 to 63.
#[derive(Clone, Copy, PartialEq, Eq, Debug)]
pub struct Wire {
    number: u8,
}

// No wire has the number.
#[derive(Clone, Copy, PartialEq, Eq, Debug)]
pub struct NoSuchWire;

impl Model for Wire {
    ghost use Rattle.std.specs.Prelude.{ℕ, ◌<◌};

    ghost Value = { ℕ };

    ghost view = { λ w. w.number };

    ghost invariant = { λ w. w.number < 64 };

    ghost inverse = { λ n. record { number = n } };
}

// The wire of a number, if there is one.
impl TryFrom<u8> for Wire {
    type Error = NoSuchWire;

    ghost try_from_gives = { Numbers };

    fn try_from(number: u8) -> Result<Wire, NoSuchWire> {
        if number < WIRES {
            Ok(Wire { number })
        } else {
            Err(NoSuchWire)
        }
    }
}

// The wire's number.
impl From<Wire> for u8 {
    ghost from_gives = { λ wire number. number ≡ wire };

    fn from(wire: Wire) -> u8 {
        wire.number
    }
}

// The set of the wire alone.
impl From<Wire> for WireSet {
    ghost from_gives = { λ wire set. set.bits ≡ 2 ^ wire };

    fn from(wire: Wire) -> WireSet {
        let bits = 1 << wire.number;
        WireSet { bits }
    }
}
