// Rules of state machines.
#![tactic(auto)]

pub mod firing;
pub mod rule;

pub use rule::Rule;
