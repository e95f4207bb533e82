// Writing recipes: the writer in its three states, and rewriting.
#![tactic(auto)]

mod encode;
mod pen;
pub mod rewrite;
pub mod writer;

pub use writer::{Finished, MachineWriter, Unwritten, Writer};
