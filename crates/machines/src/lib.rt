// The parts that are no compositions: machines and counters.
#![tactic(auto)]

pub mod asking;
pub mod machine;
pub mod reacting;
pub mod refusal;

pub use machine::Machine;
pub use parts::counter::{Counter, CounterRefusal};
pub use reacting::react;
pub use refusal::{MachineRefusal, RuleRefusal};
