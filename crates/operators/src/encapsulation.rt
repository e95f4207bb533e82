// Encapsulation: a part with hidden wires.
ghost use Rattle.std.specs.Prelude.{◌≡◌, [], is_ok, IfOk, IfErr, nat_le};
ghost use Rattle.signals.specs.Sets.{difference};
ghost use Rattle.parts.specs.Operators.{under};
ghost use Rattle.parts.specs.Trees.{encapsulation, chosen};
ghost use Rattle.settings.specs.Tried.{size};
ghost use Rattle.settings.specs.Findings.{told_outputs, ToldSetting};
ghost use Rattle.operators.specs.Joined.{encapsulation_course};
ghost use Rattle.operators.specs.Heeding.{encapsulation_both_unread};
ghost use Rattle.operators.specs.Emitting.{encapsulation_both_named};
ghost use Rattle.operators.specs.Holding.{both_lawful, encapsulation_planned};

use crate::unmade::{OperatorRefusal, Unmade};
use parts::{Fault, Part};
use settings::{Findings, Hidden};
use signals::WireSet;

#[derive(Drop)]
pub struct Encapsulation<P> {
    hidden: Hidden,
    place: u16,
    inside: P,
}

impl<P: Part> Encapsulation<P> {
    // The part inside, restarted, with hidden wires, at a place. A refused making hands it back as it was.
    pub fn new(hidden: WireSet, place: u16, mut inside: P) -> Result<Encapsulation<P>, Unmade<P>>
        ensures made { is_ok result ≡ nat_le (size hidden.bits) 12 }
        ensures refused { IfErr result (λ e. (e.refusal ≡ OperatorRefusal.TooManyHidden) × (e.inside ≡ inside)) }
        ensures course { IfOk result (λ s. ⟦<Encapsulation<P> as Part>⟧.course s ≡ encapsulation_course hidden.bits place (P.Part.fresh inside, P.Part.fresh inside)) }
        ensures fresh { IfOk result (λ s. ⟦<Encapsulation<P> as Part>⟧.fresh s ≡ encapsulation_course hidden.bits place (P.Part.fresh inside, P.Part.fresh inside)) }
        ensures reads { IfOk result (λ s. ⟦<Encapsulation<P> as Part>⟧.reads s ≡ difference (P.Part.reads inside) hidden.bits) }
        ensures emits { IfOk result (λ s. ⟦<Encapsulation<P> as Part>⟧.emits s ≡ difference (P.Part.emits inside) hidden.bits) }
        ensures plan { IfOk result (λ s. ⟦<Encapsulation<P> as Part>⟧.plan s ≡ encapsulation hidden.bits place (P.Part.plan inside)) }
    {
        // by `let else`, as in `Inhibition::new`: a closure of `map_err` would take the part inside
        let Ok(hidden) = Hidden::try_from(hidden) else {
            return Err(Unmade {
                refusal: OperatorRefusal::TooManyHidden,
                inside,
            });
        };
        inside.restart();
        Ok(Encapsulation {
            hidden,
            place,
            inside,
        })
    }

    // Looks at the inside under every setting, by rising value, up to the first refusal. Where exactly one is
    // consistent: that setting, and the outputs without the hidden wires.
    fn settle(&self, input: WireSet) -> Result<(WireSet, WireSet), Fault>
        ensures outputs { told_outputs result ≡ ⟦<Encapsulation<P> as Part>⟧.course self.now [] input.bits }
        ensures setting { ToldSetting result (chosen self.now.hidden (λ s. P.Part.course self.now.inside [] (under self.now.hidden input.bits s))) }
    {
        let mut findings = Findings::Nothing;
        for setting in self.hidden.settings() {
            let outputs = self.inside.look(self.hidden.input(input, setting))?;
            findings = findings.take(self.hidden, setting, outputs);
        }
        findings.answer(self.hidden, self.place)
    }
}

impl<P: Part> Part for Encapsulation<P> {
    ghost course = { λ s. encapsulation_course s.hidden s.place (P.Part.course s.inside, P.Part.fresh s.inside) };

    ghost fresh = { λ s. encapsulation_course s.hidden s.place (P.Part.fresh s.inside, P.Part.fresh s.inside) };

    ghost reads = { λ s. difference (P.Part.reads s.inside) s.hidden };

    ghost emits = { λ s. difference (P.Part.emits s.inside) s.hidden };

    ghost plan = { λ s. encapsulation s.hidden s.place (P.Part.plan s.inside) };

    ghost lawful = { λ s. both_lawful _ _ };

    ghost unread = { λ s. encapsulation_both_unread _ s.place _ _ _ (P.Part.lawful s.inside) (P.Part.unread s.inside) };

    ghost named = { λ s. encapsulation_both_named _ s.place _ _ _ (P.Part.named s.inside) };

    ghost planned = { λ s. encapsulation_planned _ s.place _ _ (P.Part.lawful s.inside).1 (P.Part.planned s.inside) };

    fn wires_read(&self) -> WireSet {
        self.inside.wires_read().difference(self.hidden.wires())
    }

    fn wires_emitted(&self) -> WireSet {
        self.inside.wires_emitted().difference(self.hidden.wires())
    }

    fn look(&self, input: WireSet) -> Result<WireSet, Fault> {
        let (_, outputs) = self.settle(input)?;
        Ok(outputs)
    }

    fn step(&mut self, input: WireSet) -> Result<WireSet, Fault> {
        let (setting, outputs) = self.settle(input)?;
        let _ = self.inside.step(self.hidden.input(input, setting));
        Ok(outputs)
    }

    fn restart(&mut self) {
        self.inside.restart();
    }
}
