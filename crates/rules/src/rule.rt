// Rules of machines.
use signals::WireSet;

// From a state to a state, when all of `present` and none of `absent` is in the input, emitting `emits`.
#[derive(Clone, Copy, Default, PartialEq, Eq, Debug)]
pub struct Rule {
    pub from: u8,
    pub to: u8,
    pub present: WireSet,
    pub absent: WireSet,
    pub emits: WireSet,
}
