// Reading a recipe command by command.
ghost use Rattle.std.specs.Prelude.{◌≡◌, ◌+◌, ◌^◌, ◌<◌, length, drop, IfOk};
ghost use Rattle.format.specs.Commands.{today};
ghost use Rattle.format.specs.Reading.{first_read};
ghost use Rattle.format.specs.Values.{Lies, behind, words_told, answer, taken};

use crate::command::Command;
use crate::parse;
use crate::refusal::RecipeError;

// A cursor over the bytes of a recipe: what is left of it, and where that begins, which refusals tell. That reading
// goes by such a cursor is a rule of the project.
#[derive(Drop)]
pub struct Reader<'a> {
    rest: &'a [u8],
    position: usize,
    ghost fits: { position + length rest.now < 2 ^ 64 },
}

impl<'a> Reader<'a> {
    // A reader at the recipe's first byte.
    pub fn new(recipe: &'a [u8]) -> Reader<'a>
        ensures rest { result.rest ≡ recipe.entry }
        ensures position { result.position ≡ 0 }
    {
        Reader {
            rest: recipe,
            position: 0,
        }
    }

    // The position of the next byte to be read.
    pub fn position(&self) -> usize
        ensures { result ≡ self.now.position }
    {
        self.position
    }

    // The next command. The reader goes on with the bytes behind it; a refusal leaves it where it is.
    pub fn read(&mut self) -> Result<Command<'a>, RecipeError>
        ensures value { words_told result ≡ answer self.old.position (first_read today self.old.rest.now) }
        ensures position { self.new.position ≡ self.old.position + taken (first_read today self.old.rest.now) }
        ensures rest { self.new.rest.now ≡ drop (taken (first_read today self.old.rest.now)) self.old.rest.now }
        ensures place { self.new.rest.ref_ptr ≡ behind self.old.rest.ref_ptr (taken (first_read today self.old.rest.now)) }
        ensures fewer { IfOk result (λ _. length self.new.rest.now < length self.old.rest.now) }
        ensures name { IfOk result (Lies (behind self.old.rest.ref_ptr 1)) }
    {
        let position = self.position;
        let (command, used) = parse::first_command(self.rest).map_err(|refusal| RecipeError {
            refusal,
            position,
        })?;
        self.rest = &self.rest[used..];
        self.position += used;
        Ok(command)
    }
}
