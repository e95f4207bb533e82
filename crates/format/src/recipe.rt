// Whole recipes.
ghost use Rattle.std.specs.Prelude.{◌≡◌, map, IfOk, None, MatchResult};
ghost use Rattle.format.specs.Commands.{today};
ghost use Rattle.format.specs.Reading.{read_all};
ghost use Rattle.format.specs.Recipes.{Whole};
ghost use Rattle.format.specs.Values.{word, counted, NamesLie, RefusedBy};

use crate::command::Command;
use crate::reader::Reader;
use crate::refusal::RecipeError;
use std::alloc::Global;

// The most bytes that the file of a recipe may have.
pub const MAX_RECIPE: usize = 16_384;

// How many commands a whole recipe has, END among them.
pub fn count_commands(recipe: &[u8]) -> Result<usize, RecipeError>
    ensures value { result ≡ counted (read_all today recipe.now) }
    ensures law { Whole today recipe.now (read_all today recipe.now) }
{
    let mut reader = Reader::new(recipe);
    let mut count = 0;
    // A loop over the reader, here and below, and no `for` over `Commands`: with that, a recipe of short commands took
    // half as much time again.
    loop {
        let command = reader.read()?;
        count += 1;
        if command.is_end() {
            return Ok(count);
        }
    }
}

// The commands of a whole recipe, END last. A refusal is told whatever memory there is.
pub fn read_commands<'a>(heap: Global, recipe: &'a [u8]) -> Result<Vec<Command<'a>>, RecipeError>
    ensures value { MatchResult result (λ v. read_all today recipe.now ≡ record { words = map word v.items; ending = None }) (RefusedBy (read_all today recipe.now)) }
    ensures law { Whole today recipe.now (read_all today recipe.now) }
    ensures names { IfOk result (λ v. NamesLie recipe.entry.ref_ptr v.items) }
{
    let count = count_commands(recipe)?;
    let mut commands = Vec::with_capacity(heap, count)?;
    let mut reader = Reader::new(recipe);
    loop {
        let command = reader.read()?;
        commands.push(command)?;
        if command.is_end() {
            return Ok(commands);
        }
    }
}
