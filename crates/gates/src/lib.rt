// A part that refuses, for examples.
#![tactic(auto)]

pub mod gate;

pub use gate::Gate;
