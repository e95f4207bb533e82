// Signals: wires, and sets of them.
#![tactic(auto)]

pub mod wire;
pub mod wire_set;

pub use wire::{NoSuchWire, Wire};
pub use wire_set::WireSet;
