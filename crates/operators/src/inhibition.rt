// Inhibition: a part that sleeps while a wire is present.
ghost use Rattle.std.specs.Prelude.{◌≡◌, ◌^◌, is_ok, IfOk, IfErr, nat_lt};
ghost use Rattle.signals.specs.Sets.{union};
ghost use Rattle.parts.specs.Trees.{inhibition};
ghost use Rattle.operators.specs.Joined.{inhibition_course};
ghost use Rattle.operators.specs.Heeding.{inhibition_both_unread};
ghost use Rattle.operators.specs.Emitting.{inhibition_both_named};
ghost use Rattle.operators.specs.Holding.{both_lawful, inhibition_planned};

use crate::unmade::{OperatorRefusal, Unmade};
use parts::{Fault, Part};
use signals::{Wire, WireSet};

#[derive(Drop)]
pub struct Inhibition<P> {
    wire: Wire,
    inside: P,
}

impl<P: Part> Inhibition<P> {
    // The part inside, restarted, to sleep while the wire is present. A refused making hands it back as it was.
    pub fn new(wire: u8, mut inside: P) -> Result<Inhibition<P>, Unmade<P>>
        ensures made { is_ok result ≡ nat_lt wire 64 }
        ensures refused { IfErr result (λ e. (e.refusal ≡ OperatorRefusal.Wire) × (e.inside ≡ inside)) }
        ensures course { IfOk result (λ s. ⟦<Inhibition<P> as Part>⟧.course s ≡ inhibition_course wire (P.Part.fresh inside, P.Part.fresh inside)) }
        ensures fresh { IfOk result (λ s. ⟦<Inhibition<P> as Part>⟧.fresh s ≡ inhibition_course wire (P.Part.fresh inside, P.Part.fresh inside)) }
        ensures reads { IfOk result (λ s. ⟦<Inhibition<P> as Part>⟧.reads s ≡ union (2 ^ wire) (P.Part.reads inside)) }
        ensures emits { IfOk result (λ s. ⟦<Inhibition<P> as Part>⟧.emits s ≡ P.Part.emits inside) }
        ensures plan { IfOk result (λ s. ⟦<Inhibition<P> as Part>⟧.plan s ≡ inhibition wire (P.Part.plan inside)) }
    {
        // by `let else`, as in `Encapsulation::new`: a closure of `map_err` would take the part inside
        let Ok(wire) = Wire::try_from(wire) else {
            return Err(Unmade {
                refusal: OperatorRefusal::Wire,
                inside,
            });
        };
        inside.restart();
        Ok(Inhibition { wire, inside })
    }
}

impl<P: Part> Part for Inhibition<P> {
    ghost course = { λ s. inhibition_course s.wire (P.Part.course s.inside, P.Part.fresh s.inside) };

    ghost fresh = { λ s. inhibition_course s.wire (P.Part.fresh s.inside, P.Part.fresh s.inside) };

    ghost reads = { λ s. union (2 ^ s.wire) (P.Part.reads s.inside) };

    ghost emits = { λ s. P.Part.emits s.inside };

    ghost plan = { λ s. inhibition s.wire (P.Part.plan s.inside) };

    ghost lawful = { λ s. both_lawful _ _ };

    ghost unread = { λ s. inhibition_both_unread s.wire _ _ _ (P.Part.lawful s.inside) (P.Part.unread s.inside) };

    ghost named = { λ s. inhibition_both_named s.wire _ _ _ (P.Part.named s.inside) };

    ghost planned = { λ s. inhibition_planned s.wire _ _ (P.Part.lawful s.inside).1 (P.Part.planned s.inside) };

    fn wires_read(&self) -> WireSet {
        WireSet::from(self.wire).union(self.inside.wires_read())
    }

    fn wires_emitted(&self) -> WireSet {
        self.inside.wires_emitted()
    }

    fn look(&self, input: WireSet) -> Result<WireSet, Fault> {
        if input.contains(u8::from(self.wire)) {
            return Ok(WireSet::EMPTY);
        }
        self.inside.look(input)
    }

    fn step(&mut self, input: WireSet) -> Result<WireSet, Fault> {
        if input.contains(u8::from(self.wire)) {
            return Ok(WireSet::EMPTY);
        }
        self.inside.step(input)
    }

    fn restart(&mut self) {
        self.inside.restart();
    }
}
