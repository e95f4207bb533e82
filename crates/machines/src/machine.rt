// Machines: how they are made, and how they react.
ghost use Rattle.std.specs.Prelude.{◌≡◌, ◌<◌, true, [], is_ok, IfOk, IfErr, Decides, refl};
ghost use Rattle.std.proofs.Common.{sym};
ghost use Rattle.parts.specs.Calls.{Reached};
ghost use Rattle.parts.specs.Stages.{as_move};
ghost use Rattle.parts.specs.Trees.{part, staged};
ghost use Rattle.parts.specs.Leaves.{part_planned, staged_planned};
ghost use Rattle.machines.specs.Reactions.{reaction, Determined, KeepsStates, read_by_rules, emitted_by_rules};
ghost use Rattle.machines.specs.Questions.{ToldFirst, Proper, machine_question};
ghost use Rattle.machines.specs.Machines.{machine_moves, machine_course, NeverRefuses};
ghost use Rattle.machines.specs.Courses.{now_and_fresh, machine_lawful, outputs_are_lawful, machine_unread, outputs_are_unread, machine_named, machine_stays};

use crate::asking::{MAX_RULES, check_machine};
use crate::reacting::{react, rules_emit, rules_read};
use crate::refusal::MachineRefusal;
use arrayvec::ArrayVec;
use parts::{Fault, Part, Staged};
use rules::Rule;
use signals::WireSet;

// A state machine with 1 to 16 states and at most 16 rules. It starts in state 0.
#[derive(Drop)]
pub struct Machine {
    states: u8,
    // in written order
    rules: ArrayVec<Rule, MAX_RULES>,
    state: u8,
    // it is in one of its states
    ghost exists: { state < states },
    // nothing that was asked of them was refused
    ghost proper: { is_ok (machine_question states rules.items) ≡ true },
}

impl Machine {
    ghost use Rattle.machines.specs.Made.{machine_states, machine_rules, machine_state, machine_made, machine_making};

    // A machine in state 0.
    pub fn new(states: u8, rules: &[Rule]) -> Result<Machine, MachineRefusal>
        ensures value { machine_made result ≡ machine_making states rules.now }
        ensures proper { Decides (is_ok result) (Proper states rules.now) }
        ensures refused { IfErr result (λ e. ToldFirst states rules.now e) }
        ensures begins { IfOk result (λ s. Reached (part (machine_course (machine_rules s) 0)) (machine_course (machine_rules s) (machine_state s)) []) }
        ensures determined { IfOk result (λ s. Determined (machine_rules s)) }
        ensures states { IfOk result (λ s. KeepsStates (machine_states s) (machine_rules s)) }
        ensures accepts { IfOk result (λ s. NeverRefuses (machine_rules s)) }
    {
        check_machine(states, rules)?;
        Ok(Machine {
            states,
            // a 17th rule was refused
            rules: ArrayVec::try_from(rules).unwrap(),
            state: 0,
        })
    }

    // The move that the rules have at an input.
    fn reaction(&self, input: WireSet) -> (WireSet, u8, bool)
        ensures value { as_move result ≡ reaction (machine_rules self.now) self.now.state input.bits }
        ensures state { result.1 < self.now.states }
    {
        react(&self.rules, self.state, input)
    }
}

// As a part it does what its moves do. Refinements say the same: an interface cannot give the methods of the one
// below it.
impl Part for Machine {
    ghost use Rattle.machines.specs.Made.{machine_rules, machine_state};

    ghost course = { λ s. machine_course (machine_rules s) (machine_state s) };

    ghost fresh = { λ s. machine_course (machine_rules s) 0 };

    ghost reads = { λ s. read_by_rules (machine_rules s) };

    ghost emits = { λ s. emitted_by_rules (machine_rules s) };

    ghost plan = { λ s. part (machine_course (machine_rules s) 0) };

    ghost lawful = { λ s. now_and_fresh (outputs_are_lawful (machine_rules s)) (machine_state s) };

    ghost unread = { λ s. now_and_fresh (outputs_are_unread (machine_rules s)) (machine_state s) };

    ghost named = { λ s. now_and_fresh (machine_named (machine_rules s)) (machine_state s) };

    ghost planned = { λ s. sym (part_planned (machine_course (machine_rules s) 0) (outputs_are_lawful (machine_rules s) 0)) };

    fn wires_read(&self) -> WireSet {
        self.wires_read_by_moves()
    }

    fn wires_emitted(&self) -> WireSet {
        self.wires_emitted_by_moves()
    }

    fn look(&self, input: WireSet) -> Result<WireSet, Fault> {
        let (outputs, _, _) = self.predict(input)?;
        Ok(outputs)
    }

    fn step(&mut self, input: WireSet) -> Result<WireSet, Fault> {
        let (outputs, _, _) = self.make_move(input)?;
        Ok(outputs)
    }

    fn restart(&mut self) {
        self.start_over();
    }
}

impl Staged for Machine {
    ghost use Rattle.machines.specs.Made.{machine_rules, machine_state};

    ghost moves = { λ s. machine_moves (machine_rules s) (machine_state s) };

    ghost anew = { λ s. machine_moves (machine_rules s) 0 };

    ghost stage = { machine_state };

    ghost heeds = { λ s. read_by_rules (machine_rules s) };

    ghost sends = { λ s. emitted_by_rules (machine_rules s) };

    ghost layout = { λ s. staged (machine_moves (machine_rules s) 0) };

    ghost orderly = { λ s. now_and_fresh (machine_lawful (machine_rules s)) (machine_state s) };

    ghost unheeded = { λ s. now_and_fresh (machine_unread (machine_rules s)) (machine_state s) };

    ghost emitted = { λ s. now_and_fresh (machine_named (machine_rules s)) (machine_state s) };

    ghost projected = { λ s. (refl, refl) };

    ghost stays = { λ s. now_and_fresh (machine_stays (machine_rules s)) (machine_state s) };

    ghost staged = { λ s. sym (staged_planned (machine_moves (machine_rules s) 0) (machine_lawful (machine_rules s) 0)) };

    fn current_stage(&self) -> u8 {
        self.state
    }

    fn wires_read_by_moves(&self) -> WireSet {
        rules_read(&self.rules)
    }

    fn wires_emitted_by_moves(&self) -> WireSet {
        rules_emit(&self.rules)
    }

    fn predict(&self, input: WireSet) -> Result<(WireSet, u8, bool), Fault> {
        Ok(self.reaction(input))
    }

    fn make_move(&mut self, input: WireSet) -> Result<(WireSet, u8, bool), Fault> {
        let (outputs, state, fired) = self.reaction(input);
        self.state = state;
        Ok((outputs, state, fired))
    }

    fn start_over(&mut self) {
        self.state = 0;
    }
}
