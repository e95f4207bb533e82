// A part that refuses: it shows that anything that keeps the interface's laws is a part, and what becomes of its
// faults.
ghost use Rattle.parts.specs.Trees.{part};
ghost use Rattle.gates.specs.Gates.{gate_course};
ghost use Rattle.gates.specs.GatePartLemmas;
ghost use Rattle.std.proofs.Common.{sym};
ghost use Rattle.parts.specs.Leaves.{part_planned};

use parts::{Fault, Part};
use signals::WireSet;

// Refuses the wire 0 with its fault, and emits nothing.
#[derive(Drop)]
pub struct Gate {
    pub fault: Fault,
}

impl Part for Gate {
    ghost course = { λ s. gate_course s.fault };

    ghost fresh = { λ s. gate_course s.fault };

    ghost reads = { λ s. 1 };

    ghost emits = { λ s. 0 };

    ghost plan = { λ s. part (gate_course s.fault) };

    ghost lawful = { λ s. (GatePartLemmas.lawful s.fault, GatePartLemmas.lawful s.fault) };

    ghost unread = { λ s. (GatePartLemmas.unread s.fault, GatePartLemmas.unread s.fault) };

    ghost named = { λ s. (GatePartLemmas.named s.fault, GatePartLemmas.named s.fault) };

    ghost planned = { λ s. sym (part_planned (gate_course s.fault) (GatePartLemmas.lawful s.fault)) };

    fn wires_read(&self) -> WireSet {
        WireSet { bits: 1 }
    }

    fn wires_emitted(&self) -> WireSet {
        WireSet::EMPTY
    }

    fn look(&self, input: WireSet) -> Result<WireSet, Fault> {
        if input.contains(0) {
            return Err(self.fault);
        }
        Ok(WireSet::EMPTY)
    }

    fn step(&mut self, input: WireSet) -> Result<WireSet, Fault> {
        self.look(input)
    }

    fn restart(&mut self) {}
}
