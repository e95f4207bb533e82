// What the programs print.
#![tactic(auto)]

pub mod lines;
pub mod wires;
