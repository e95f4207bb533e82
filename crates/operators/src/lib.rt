// The four operators of Argos over any parts.
#![tactic(auto)]

pub mod encapsulation;
pub mod inhibition;
pub mod parallel;
pub mod refinement;
pub mod unmade;

pub use encapsulation::Encapsulation;
pub use inhibition::Inhibition;
pub use parallel::Parallel;
pub use refinement::Refinement;
pub use unmade::{OperatorRefusal, Unmade};
