// The commands of a recipe, one by one.
ghost use Rattle.std.specs.Prelude.{◌≡◌, false};

use crate::command::Command;
use crate::reader::Reader;
use crate::refusal::RecipeError;

// Gives each command of a recipe, END among them, or why there is none. Behind END and behind a refusal it gives nothing.
#[derive(Drop)]
pub struct Commands<'a> {
    reader: Reader<'a>,
    // A flag, and no `Option` of the reader, which would be taken out and put back at each command.
    ended: bool,
}

impl<'a> Commands<'a> {
    // The commands of a recipe, from its first byte on.
    pub fn new(recipe: &'a [u8]) -> Commands<'a>
        ensures rest { result.reader.rest ≡ recipe.entry }
        ensures position { result.reader.position ≡ 0 }
        ensures ended { result.ended ≡ false }
    {
        Commands {
            reader: Reader::new(recipe),
            ended: false,
        }
    }
}

impl<'a> Iterator for Commands<'a> {
    ghost use Rattle.format.specs.Stepping.{Steps, steps_left};

    type Item = Result<Command<'a>, RecipeError>;

    ghost next_gives = { Steps };

    ghost remaining = { steps_left };

    fn next(&mut self) -> Option<Result<Command<'a>, RecipeError>> {
        if self.ended {
            return None;
        }
        let command = self.reader.read();
        self.ended = match command {
            Ok(command) => command.is_end(),
            Err(_) => true,
        };
        Some(command)
    }
}
