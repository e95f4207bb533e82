// Parts: what reacts.
#![tactic(auto)]

pub mod call;
pub mod counter;
pub mod fault;
pub mod part;
pub mod performing;
pub mod staged;
pub mod stepping;

pub use call::{Call, Reply};
pub use fault::{Fault, SHORT_LIST};
pub use part::Part;
pub use performing::{perform, perform_call};
pub use staged::Staged;
pub use stepping::{RunReport, run};
