// Calls performed on any part.
ghost use Rattle.std.specs.Prelude.{◌≡◌, [], ◌∷◌, length};
ghost use Rattle.parts.specs.Calls.{Reached, Promised, part_reply, part_left, call_of, reply_of, Unmoved, roomy, performed, replies_of, replied, RestKept, course_left, PromisedAll};
ghost use Rattle.parts.specs.Keeping.{Keeps};

use crate::call::{Call, Reply};
use crate::fault::{Fault, SHORT_LIST};
use crate::part::Part;

// Perform one call on a part, wherever earlier calls led it. `begins` stands in each contract that speaks of a
// promise, here, at `perform` and at `Machine::new`, so that each can be read alone.
pub fn perform_call<P: Part>(part: &mut P, call: Call) -> Reply
    ensures value { reply_of result ≡ part_reply (P.Part.course part.old) (call_of call) }
    ensures course { P.Part.course part.new ≡ part_left (P.Part.fresh part.old) (P.Part.course part.old) (call_of call) }
    ensures kept { Keeps P.Part.fresh P.Part.reads P.Part.emits P.Part.plan part.old part.new }
    ensures begins { Reached (P.Part.plan part.old) (P.Part.fresh part.old) [] }
    ensures promise { Promised (P.Part.plan part.old) (P.Part.course part.old) (call_of call ∷ []) (reply_of result ∷ []) (P.Part.course part.new) }
{
    // a match, and no closure: calls are data, which callers keep in lists
    match call {
        Call::Look(input) => Reply::Answer(part.look(input)),
        Call::Step(input) => Reply::Answer(part.step(input)),
        Call::Restart => {
            part.restart();
            Reply::Restarted
        }
    }
}

// Perform calls on a part, one after the other, wherever earlier calls led it, and hand out their replies. With a
// shorter reply list nothing is performed and nothing written. Two slices as in `run`: it allocates nothing, by a
// rule of the project.
pub fn perform<P: Part>(part: &mut P, calls: &[Call], replies: &mut [Reply]) -> Result<(), Fault>
    ensures value { result ≡ roomy (length calls.now) (length replies.old) }
    ensures replies { replies_of replies.new ≡ replied (P.Part.fresh part.old) (P.Part.course part.old) (performed calls.now replies.old) replies.old }
    ensures stay { RestKept (performed calls.now replies.old) replies.old replies.new }
    ensures course { P.Part.course part.new ≡ course_left (P.Part.fresh part.old) (P.Part.course part.old) (performed calls.now replies.old) }
    ensures unmoved { Unmoved (length calls.now) (length replies.old) part.old part.new }
    ensures kept { Keeps P.Part.fresh P.Part.reads P.Part.emits P.Part.plan part.old part.new }
    ensures begins { Reached (P.Part.plan part.old) (P.Part.fresh part.old) [] }
    ensures promise { PromisedAll (P.Part.plan part.old) (P.Part.course part.old) (performed calls.now replies.old) replies.new (P.Part.course part.new) }
{
    if replies.len() < calls.len() {
        return Err(SHORT_LIST);
    }
    // Tried with `replies.iter_mut().zip(calls)`: behind such a loop nothing is known of the replies, and the proof
    // did not close.
    for (i, call) in calls.iter().enumerate() {
        replies[i] = perform_call(part, *call);
    }
    Ok(())
}
