// Why bytes are no recipe, or a command was not written.
ghost use Rattle.std.specs.Prelude.{◌≡◌, Some, decimal};
ghost use Rattle.format.specs.Refusals.{refusal_number, error_text, out_of_memory};

use std::alloc::{AllocError, AllocFailed};
use std::error::Error;
use std::fmt;

#[derive(Clone, Copy, PartialEq, Eq, Debug)]
pub enum Refusal {
    // No byte is left where a command should begin.
    EndOfBytes = 1,
    // The byte begins no command.
    UnknownCommand = 2,
    // Bytes of the command's operands are missing.
    MissingOperands = 3,
    // The name of a WIRE is not well formed.
    MalformedName = 5,
    // A RULE stands behind another command than MACHINE or RULE.
    MisplacedRule = 9,
    // A byte stands behind END.
    BytesAfterEnd = 21,
    // The file is longer than a recipe may be.
    TooLong = 22,
    // The output has no space for what is to be written.
    NoSpace = 51,
    // Want of memory.
    OutOfMemory = 100,
}

impl Refusal {
    // The number by which people know the refusal. Each enum of refusals has such a call: a trait for all would ask each
    // for its numbers again.
    pub fn number(self) -> u8
        ensures { result ≡ refusal_number self }
    {
        self as u8
    }
}

// A refusal is printed as its number.
impl fmt::Display for Refusal {
    ghost output = { λ r. Some (decimal (refusal_number r)) };

    fn fmt<W: fmt::Write>(&self, f: &mut fmt::Formatter<W>) -> fmt::Result {
        write!(f, "{}", self.number())
    }
}

// A refusal, with the position of the byte that it is about.
#[derive(Clone, Copy, PartialEq, Eq, Debug)]
pub struct RecipeError {
    pub refusal: Refusal,
    pub position: usize,
}

impl RecipeError {
    // Want of memory, which is about no byte.
    const OUT_OF_MEMORY: RecipeError = RecipeError {
        refusal: Refusal::OutOfMemory,
        position: 0,
    };
}

// The word load, the refusal's number and the position.
impl fmt::Display for RecipeError {
    ghost output = { λ e. Some (error_text e) };

    fn fmt<W: fmt::Write>(&self, f: &mut fmt::Formatter<W>) -> fmt::Result {
        write!(f, "load {} {}", self.refusal, self.position)
    }
}

impl Error for RecipeError {}

// A collection fails with the one error where it is made and with the other where a value is added, so `?` needs both.
impl From<AllocError> for RecipeError {
    ghost from_gives = { λ _ r. r ≡ out_of_memory };

    fn from(_error: AllocError) -> RecipeError {
        RecipeError::OUT_OF_MEMORY
    }
}

impl<T: Drop> From<AllocFailed<T>> for RecipeError {
    ghost from_gives = { λ _ r. r ≡ out_of_memory };

    fn from(_error: AllocFailed<T>) -> RecipeError {
        RecipeError::OUT_OF_MEMORY
    }
}
