// The interface of parts that have a stage.
ghost use Rattle.std.specs.Prelude.{◌≡◌, ℕ, []};
ghost use Rattle.parts.specs.Courses.{Course, after, Lawful, Unread, Named};
ghost use Rattle.parts.specs.Operators.{Move};
ghost use Rattle.parts.specs.Trees.{outputs};
ghost use Rattle.parts.specs.Plans.{StagedPlan, plan_moves, told_stage};
ghost use Rattle.parts.specs.Stages.{outputs_of, Stays, told_move};
ghost use Rattle.parts.specs.Keeping.{Keeps, KeepsMoves};

use crate::fault::Fault;
use crate::part::Part;
use signals::WireSet;

// A staged part also has a stage, numbered from 0. Its move does what a step does, and answers three things together:
// the outputs, the next stage, and whether a written rule fired. Its own meaning is the course of its moves.
// By a rule of the project a move and its prediction answer these as a tuple, and no struct.
pub trait Staged: Part {
    // the course of moves now, and the one behind a restart
    ghost moves: { Self → Course Move };

    ghost anew: { Self → Course Move };
    // the present stage
    ghost stage: { Self → ℕ };
    // the wires that moves read, and those that they emit
    ghost heeds: { Self → ℕ };

    ghost sends: { Self → ℕ };
    // the staged composition's tree, with the fresh courses at its parts
    ghost layout: { Self → StagedPlan };

    // The stage now.
    fn current_stage(&self) -> u8
        ensures { result ≡ stage self.now };

    // The wires that alter moves.
    fn wires_read_by_moves(&self) -> WireSet
        ensures { result.bits ≡ heeds self.now };

    // The wires that the outputs of moves may have.
    fn wires_emitted_by_moves(&self) -> WireSet
        ensures { result.bits ≡ sends self.now };

    // The move that an input would be answered with, with nothing altered.
    fn predict(&self, input: WireSet) -> Result<(WireSet, u8, bool), Fault>
        ensures value { told_move result ≡ moves self.now [] input.bits }
        ensures answer { outputs (told_move result) ≡ Self.Part.course self.now [] input.bits };

    // One move. A refused input leaves everything as it was.
    fn make_move(&mut self, input: WireSet) -> Result<(WireSet, u8, bool), Fault>
        ensures value { told_move result ≡ moves self.old [] input.bits }
        ensures answer { outputs (told_move result) ≡ Self.Part.course self.old [] input.bits }
        ensures course { Self.Part.course self.new ≡ after (Self.Part.course self.old) input.bits }
        ensures moves { moves self.new ≡ after (moves self.old) input.bits }
        ensures stage { stage self.new ≡ told_stage (moves self.old [] input.bits) (stage self.old) }
        ensures kept { Keeps Self.Part.fresh Self.Part.reads Self.Part.emits Self.Part.plan self.old self.new }
        ensures kept_moves { KeepsMoves anew heeds sends layout self.old self.new };

    // Start over, in stage 0.
    fn start_over(&mut self)
        ensures course { Self.Part.course self.new ≡ Self.Part.fresh self.old }
        ensures moves { moves self.new ≡ anew self.old }
        ensures stage { stage self.new ≡ 0 }
        ensures kept { Keeps Self.Part.fresh Self.Part.reads Self.Part.emits Self.Part.plan self.old self.new }
        ensures kept_moves { KeepsMoves anew heeds sends layout self.old self.new };

    // What follows a refused move is answered as if that had not been tried.
    ghost orderly: { (s : Self) → Lawful (moves s) × Lawful (anew s) };

    // Wires that moves do not read alter no move, at any place of a list.
    ghost unheeded: { (s : Self) → Unread (heeds s) (moves s) × Unread (heeds s) (anew s) };

    // No move emits a wire but the named ones.
    ghost emitted: { (s : Self) → Named (sends s) (outputs_of (moves s)) × Named (sends s) (outputs_of (anew s)) };

    // The part's courses are the outputs of its moves: a refused move has the step's fault.
    ghost projected: { (s : Self) → (Self.Part.course s ≡ outputs_of (moves s)) × (Self.Part.fresh s ≡ outputs_of (anew s)) };

    // Where no written rule fires the stage stays. A restarted part is in stage 0.
    ghost stays: { (s : Self) → Stays (stage s) (moves s) × Stays 0 (anew s) };

    // The fresh moves are what the staged plan works out to.
    ghost staged: { (s : Self) → anew s ≡ plan_moves (layout s) };
}
