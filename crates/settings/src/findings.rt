// What was found under settings.
ghost use Rattle.settings.specs.Findings.{Taken, Tells};

use crate::hidden::Hidden;
use parts::Fault;
use signals::WireSet;

// No setting is consistent. A cause is a number, and no enum: see `Fault`.
pub const NONE_CONSISTENT: u8 = 41;
// Several settings are consistent.
pub const SEVERAL_CONSISTENT: u8 = 42;

// What was found under the settings that were tried. A setting is consistent where the inside emits, of the hidden wires,
// exactly those of the setting. They do not hold the hidden wires, which would be no plainer: each of the three cases would
// need them, and whoever tries the settings has them.
#[derive(Clone, Copy, PartialEq, Eq, Debug)]
pub enum Findings {
    // No setting was consistent.
    Nothing,
    // Exactly one was, with what the inside emits under it.
    One { setting: WireSet, outputs: WireSet },
    // Several were.
    Several { count: u16 },
}

impl Findings {
    // With what the inside emits under one more setting.
    pub fn take(self, hidden: Hidden, setting: WireSet, outputs: WireSet) -> Findings
        ensures { Taken self hidden setting.bits outputs.bits result }
    {
        if outputs.intersection(hidden.wires()) != setting {
            return self;
        }
        match self {
            Findings::Nothing => Findings::One { setting, outputs },
            Findings::One { .. } => Findings::Several { count: 2 },
            // a count that no longer fitted would stay the largest; the settings of 12 wires are too few for that
            Findings::Several { count } => Findings::Several {
                count: count.saturating_add(1),
            },
        }
    }

    // With exactly one consistent setting: that setting, and the outputs without the hidden wires. Otherwise a fault at the
    // place: 41, or 42 with how many there are.
    pub fn answer(self, hidden: Hidden, place: u16) -> Result<(WireSet, WireSet), Fault>
        ensures { Tells self hidden place result }
    {
        let wires = hidden.wires();
        match self {
            Findings::Nothing => Err(Fault {
                cause: NONE_CONSISTENT,
                place,
                count: 0,
            }),
            Findings::One { setting, outputs } => Ok((setting, outputs.difference(wires))),
            Findings::Several { count } => Err(Fault {
                cause: SEVERAL_CONSISTENT,
                place,
                count,
            }),
        }
    }
}
