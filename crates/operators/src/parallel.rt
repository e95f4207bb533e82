// Parallel: two parts that react to the same input.
ghost use Rattle.std.specs.Prelude.{◌≡◌};
ghost use Rattle.signals.specs.Sets.{union};
ghost use Rattle.parts.specs.Trees.{parallel};
ghost use Rattle.operators.specs.Joined.{parallel_course};
ghost use Rattle.operators.specs.Heeding.{parallel_both_unread};
ghost use Rattle.operators.specs.Emitting.{parallel_both_named};
ghost use Rattle.operators.specs.Holding.{both_lawful, parallel_planned};

use parts::{Fault, Part};
use signals::WireSet;

#[derive(Drop)]
pub struct Parallel<L, R> {
    left: L,
    right: R,
}

impl<L: Part, R: Part> Parallel<L, R> {
    // Both parts side by side, restarted.
    pub fn new(mut left: L, mut right: R) -> Parallel<L, R>
        ensures course { ⟦<Parallel<L, R> as Part>⟧.course result ≡ parallel_course (L.Part.fresh left, L.Part.fresh left) (R.Part.fresh right, R.Part.fresh right) }
        ensures fresh { ⟦<Parallel<L, R> as Part>⟧.fresh result ≡ parallel_course (L.Part.fresh left, L.Part.fresh left) (R.Part.fresh right, R.Part.fresh right) }
        ensures reads { ⟦<Parallel<L, R> as Part>⟧.reads result ≡ union (L.Part.reads left) (R.Part.reads right) }
        ensures emits { ⟦<Parallel<L, R> as Part>⟧.emits result ≡ union (L.Part.emits left) (R.Part.emits right) }
        ensures plan { ⟦<Parallel<L, R> as Part>⟧.plan result ≡ parallel (L.Part.plan left) (R.Part.plan right) }
    {
        left.restart();
        right.restart();
        Parallel { left, right }
    }
}

impl<L: Part, R: Part> Part for Parallel<L, R> {
    ghost course = { λ s. parallel_course (L.Part.course s.left, L.Part.fresh s.left) (R.Part.course s.right, R.Part.fresh s.right) };

    ghost fresh = { λ s. parallel_course (L.Part.fresh s.left, L.Part.fresh s.left) (R.Part.fresh s.right, R.Part.fresh s.right) };

    ghost reads = { λ s. union (L.Part.reads s.left) (R.Part.reads s.right) };

    ghost emits = { λ s. union (L.Part.emits s.left) (R.Part.emits s.right) };

    ghost plan = { λ s. parallel (L.Part.plan s.left) (R.Part.plan s.right) };

    ghost lawful = { λ s. both_lawful _ _ };

    ghost unread = { λ s. parallel_both_unread _ _ _ _ _ _ (L.Part.lawful s.left) (R.Part.lawful s.right) (L.Part.unread s.left) (R.Part.unread s.right) };

    ghost named = { λ s. parallel_both_named _ _ _ _ _ _ (L.Part.named s.left) (R.Part.named s.right) };

    ghost planned = { λ s. parallel_planned _ _ _ _ (L.Part.lawful s.left).1 (R.Part.lawful s.right).1 (L.Part.planned s.left) (R.Part.planned s.right) };

    fn wires_read(&self) -> WireSet {
        self.left.wires_read().union(self.right.wires_read())
    }

    fn wires_emitted(&self) -> WireSet {
        self.left.wires_emitted().union(self.right.wires_emitted())
    }

    fn look(&self, input: WireSet) -> Result<WireSet, Fault> {
        let left = self.left.look(input)?;
        let right = self.right.look(input)?;
        Ok(left.union(right))
    }

    // Neither part moves unless both accept.
    fn step(&mut self, input: WireSet) -> Result<WireSet, Fault> {
        let outputs = self.look(input)?;
        let _ = self.left.step(input);
        let _ = self.right.step(input);
        Ok(outputs)
    }

    fn restart(&mut self) {
        self.left.restart();
        self.right.restart();
    }
}
