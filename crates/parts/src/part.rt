// The interface that everything joins by.
ghost use Rattle.std.specs.Prelude.{◌≡◌, ℕ, []};
ghost use Rattle.parts.specs.Courses.{Course, after, Lawful, Unread, Named, told};
ghost use Rattle.parts.specs.Plans.{Plan, plan_course};
ghost use Rattle.parts.specs.Keeping.{Keeps};

use crate::fault::Fault;
use signals::WireSet;

// A part turns one set of wires into one answer per tick. Its meaning is its course: the answer to the last of any
// list of inputs, if they are stepped one after the other from now on.
pub trait Part {
    // the course now, and the one behind a restart
    ghost course: { Self → Course ℕ };

    ghost fresh: { Self → Course ℕ };
    // the wires that it reads, and those that it emits
    ghost reads: { Self → ℕ };

    ghost emits: { Self → ℕ };
    // the composition's tree, with the fresh courses at its parts
    ghost plan: { Self → Plan };

    // The wires that alter answers.
    fn wires_read(&self) -> WireSet
        ensures { result.bits ≡ reads self.now };

    // The wires that outputs may have.
    fn wires_emitted(&self) -> WireSet
        ensures { result.bits ≡ emits self.now };

    // The answer to an input, with nothing altered.
    fn look(&self, input: WireSet) -> Result<WireSet, Fault>
        ensures { told result ≡ course self.now [] input.bits };

    // One reaction. A refused input leaves everything as it was.
    fn step(&mut self, input: WireSet) -> Result<WireSet, Fault>
        ensures value { told result ≡ course self.old [] input.bits }
        ensures course { course self.new ≡ after (course self.old) input.bits }
        ensures kept { Keeps fresh reads emits plan self.old self.new };

    // Start over.
    fn restart(&mut self)
        ensures course { course self.new ≡ fresh self.old }
        ensures kept { Keeps fresh reads emits plan self.old self.new };

    // What follows a refused input is answered as if that had not been put.
    ghost lawful: { (s : Self) → Lawful (course s) × Lawful (fresh s) };

    // Wires that are not read alter no answer, at any place of a list.
    ghost unread: { (s : Self) → Unread (reads s) (course s) × Unread (reads s) (fresh s) };

    // No wire is emitted but the named ones.
    ghost named: { (s : Self) → Named (emits s) (course s) × Named (emits s) (fresh s) };

    // The fresh course is what the plan works out to.
    ghost planned: { (s : Self) → fresh s ≡ plan_course (plan s) };
}
