// Calls on a part, and their replies.
use crate::fault::Fault;
use signals::wire_set::WireSet;

// A call on a part.
#[derive(Clone, Copy, PartialEq, Eq, Debug)]
pub enum Call {
    Look(WireSet),
    Step(WireSet),
    Restart,
}

// What a call answers: a restart is never refused, and has no outputs. An enum of its own, and no Option: None would
// not say that the part was restarted.
#[derive(Clone, Copy, PartialEq, Eq, Debug)]
pub enum Reply {
    Answer(Result<WireSet, Fault>),
    Restarted,
}
