// Refinement: a staged part, and a part that is awake in one of its stages.
ghost use Rattle.std.specs.Prelude.{◌≡◌, refl};
ghost use Rattle.signals.specs.Sets.{union};
ghost use Rattle.parts.specs.Trees.{moved, refinement};
ghost use Rattle.operators.specs.Joined.{refinement_course, refinement_moves};
ghost use Rattle.operators.specs.Heeding.{refinement_both_unread, refinement_outputs_unread};
ghost use Rattle.operators.specs.Emitting.{refinement_both_named, refinement_both_stay};
ghost use Rattle.operators.specs.Holding.{both_orderly, both_outputs_lawful, refinement_course_planned, refinement_planned};

use parts::{Fault, Part, Staged};
use signals::WireSet;

#[derive(Drop)]
pub struct Refinement<S, P> {
    stage: u8,
    staged: S,
    inside: P,
}

impl<S: Staged, P: Part> Refinement<S, P> {
    // The staged part, with the part inside awake in a stage; both restarted. A stage that does not exist never wakes
    // it.
    pub fn new(stage: u8, mut staged: S, mut inside: P) -> Refinement<S, P>
        ensures moves { ⟦<Refinement<S, P> as Staged>⟧.moves result ≡ refinement_moves stage (S.Staged.anew staged, S.Staged.anew staged, 0) (P.Part.fresh inside, P.Part.fresh inside) }
        ensures anew { ⟦<Refinement<S, P> as Staged>⟧.anew result ≡ refinement_moves stage (S.Staged.anew staged, S.Staged.anew staged, 0) (P.Part.fresh inside, P.Part.fresh inside) }
        ensures stage { ⟦<Refinement<S, P> as Staged>⟧.stage result ≡ 0 }
        ensures reads { ⟦<Refinement<S, P> as Staged>⟧.heeds result ≡ union (S.Staged.heeds staged) (P.Part.reads inside) }
        ensures emits { ⟦<Refinement<S, P> as Staged>⟧.sends result ≡ union (S.Staged.sends staged) (P.Part.emits inside) }
        ensures layout { ⟦<Refinement<S, P> as Staged>⟧.layout result ≡ refinement stage (S.Staged.layout staged) (P.Part.plan inside) }
    {
        staged.start_over();
        inside.restart();
        Refinement {
            stage,
            staged,
            inside,
        }
    }
}

// As a part it does what its moves do. Machines say the same: an interface cannot give the methods of the one below it.
impl<S: Staged, P: Part> Part for Refinement<S, P> {
    ghost course = { λ s. refinement_course s.stage (S.Staged.moves s.staged, S.Staged.anew s.staged, S.Staged.stage s.staged) (P.Part.course s.inside, P.Part.fresh s.inside) };

    ghost fresh = { λ s. refinement_course s.stage (S.Staged.anew s.staged, S.Staged.anew s.staged, 0) (P.Part.fresh s.inside, P.Part.fresh s.inside) };

    ghost reads = { λ s. union (S.Staged.heeds s.staged) (P.Part.reads s.inside) };

    ghost emits = { λ s. union (S.Staged.sends s.staged) (P.Part.emits s.inside) };

    ghost plan = { λ s. moved (refinement s.stage (S.Staged.layout s.staged) (P.Part.plan s.inside)) };

    ghost lawful = { λ s. both_outputs_lawful _ _ };

    ghost unread = { λ s. refinement_outputs_unread s.stage _ _ _ _ _ _ _ (S.Staged.orderly s.staged) (P.Part.lawful s.inside) (S.Staged.unheeded s.staged) (P.Part.unread s.inside) };

    ghost named = { λ s. refinement_both_named s.stage _ _ _ _ _ _ _ (S.Staged.emitted s.staged) (P.Part.named s.inside) };

    ghost planned = { λ s. refinement_course_planned s.stage _ _ _ _ (S.Staged.orderly s.staged).1 (P.Part.lawful s.inside).1 (S.Staged.staged s.staged) (P.Part.planned s.inside) };

    fn wires_read(&self) -> WireSet {
        self.wires_read_by_moves()
    }

    fn wires_emitted(&self) -> WireSet {
        self.wires_emitted_by_moves()
    }

    fn look(&self, input: WireSet) -> Result<WireSet, Fault> {
        let (outputs, _, _) = self.predict(input)?;
        Ok(outputs)
    }

    fn step(&mut self, input: WireSet) -> Result<WireSet, Fault> {
        let (outputs, _, _) = self.make_move(input)?;
        Ok(outputs)
    }

    fn restart(&mut self) {
        self.start_over();
    }
}

impl<S: Staged, P: Part> Staged for Refinement<S, P> {
    ghost moves = { λ s. refinement_moves s.stage (S.Staged.moves s.staged, S.Staged.anew s.staged, S.Staged.stage s.staged) (P.Part.course s.inside, P.Part.fresh s.inside) };

    ghost anew = { λ s. refinement_moves s.stage (S.Staged.anew s.staged, S.Staged.anew s.staged, 0) (P.Part.fresh s.inside, P.Part.fresh s.inside) };

    ghost stage = { λ s. S.Staged.stage s.staged };

    ghost heeds = { λ s. union (S.Staged.heeds s.staged) (P.Part.reads s.inside) };

    ghost sends = { λ s. union (S.Staged.sends s.staged) (P.Part.emits s.inside) };

    ghost layout = { λ s. refinement s.stage (S.Staged.layout s.staged) (P.Part.plan s.inside) };

    ghost orderly = { λ s. both_orderly _ _ };

    ghost unheeded = { λ s. refinement_both_unread s.stage _ _ _ _ _ _ _ (S.Staged.orderly s.staged) (P.Part.lawful s.inside) (S.Staged.unheeded s.staged) (P.Part.unread s.inside) };

    ghost emitted = { λ s. refinement_both_named s.stage _ _ _ _ _ _ _ (S.Staged.emitted s.staged) (P.Part.named s.inside) };

    ghost projected = { λ s. (refl, refl) };

    ghost stays = { λ s. refinement_both_stay s.stage _ _ _ _ _ (S.Staged.stays s.staged) };

    ghost staged = { λ s. refinement_planned s.stage _ _ _ _ (S.Staged.orderly s.staged).1 (P.Part.lawful s.inside).1 (S.Staged.staged s.staged) (P.Part.planned s.inside) };

    fn current_stage(&self) -> u8 {
        self.staged.current_stage()
    }

    fn wires_read_by_moves(&self) -> WireSet {
        self.staged
            .wires_read_by_moves()
            .union(self.inside.wires_read())
    }

    fn wires_emitted_by_moves(&self) -> WireSet {
        self.staged
            .wires_emitted_by_moves()
            .union(self.inside.wires_emitted())
    }

    // The staged part's move, joined by the inside's outputs where that is awake.
    fn predict(&self, input: WireSet) -> Result<(WireSet, u8, bool), Fault> {
        let (outputs, next, fired) = self.staged.predict(input)?;
        if self.staged.current_stage() != self.stage {
            return Ok((outputs, next, fired));
        }
        let inner = self.inside.look(input)?;
        Ok((outputs.union(inner), next, fired))
    }

    // The inside starts over where a written rule fires from its stage or to it, and steps where it is awake otherwise.
    fn make_move(&mut self, input: WireSet) -> Result<(WireSet, u8, bool), Fault> {
        let (outputs, next, fired) = self.predict(input)?;
        let before = self.staged.current_stage();
        let _ = self.staged.make_move(input);
        if fired && (before == self.stage || next == self.stage) {
            self.inside.restart();
        } else if before == self.stage {
            let _ = self.inside.step(input);
        }
        Ok((outputs, next, fired))
    }

    fn start_over(&mut self) {
        self.staged.start_over();
        self.inside.restart();
    }
}
