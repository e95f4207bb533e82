// The byte format of recipes: its commands, and the reader that takes them from bytes.
#![tactic(auto)]

pub mod command;
pub mod commands;
pub mod name;
mod parse;
pub mod reader;
pub mod recipe;
pub mod refusal;

pub use command::{Command, Opcode, Rule};
pub use commands::Commands;
pub use reader::Reader;
pub use refusal::{RecipeError, Refusal};
