// The wire list of a recipe.
ghost use Rattle.std.specs.Prelude.{◌≡◌, map, IfOk, string_bytes};
ghost use Rattle.std.specs.List.{AllByRecursion};
ghost use Rattle.reports.specs.Lines.{wire_list_text, wire_report};
ghost use Rattle.reports.specs.Names.{name_refs, shown, Spelled};

use crate::lines::load_line;
use format::recipe::{MAX_RECIPE, read_commands};
use format::{Command, RecipeError, Refusal};
use std::alloc::{AllocError, Global};
use std::fmt::Write;
use std::str;

// The names of the wires that commands declare, in order: the same parts of the recipe that the commands hold.
pub fn wire_names<'a>(heap: Global, commands: &[Command<'a>]) -> Result<Vec<&'a [u8]>, AllocError>
    ensures { IfOk result (λ v. v.items ≡ name_refs commands.now) }
{
    commands
        .iter()
        .filter_map(|command| match *command {
            Command::Wire { name } => Some(name),
            _ => None,
        })
        .collect(heap)
}

// A line that counts the wires, and a line for each, with its number and its name.
fn list(heap: Global, names: &[&[u8]]) -> Result<String, AllocError>
    requires { AllByRecursion Spelled names.now }
    ensures { IfOk result (λ s. string_bytes s ≡ wire_list_text (map shown names.now)) }
{
    let mut text = format!(in heap; "wires {}\n", names.len())?;
    // the index is the wire's number
    for (wire, name) in names.iter().enumerate() {
        let name = str::from_utf8(name).unwrap();
        writeln!(text, "{wire} {name}")?;
    }
    Ok(text)
}

// What the wire list program prints of a file's bytes: the wire list, or the refusal of the recipe. Want of memory
// leaves nothing to print.
pub fn wire_list(heap: Global, recipe: &[u8]) -> Result<String, AllocError>
    ensures { IfOk result (λ s. string_bytes s ≡ wire_report recipe.now) }
{
    if recipe.len() > MAX_RECIPE {
        return load_line(
            heap,
            RecipeError {
                refusal: Refusal::TooLong,
                position: 0,
            },
        );
    }
    match read_commands(heap, recipe) {
        Ok(commands) => {
            let names = wire_names(heap, &commands)?;
            list(heap, &names)
        }
        Err(
            RecipeError {
                refusal: Refusal::OutOfMemory,
                ..
            },
        ) => Err(AllocError),
        Err(error) => load_line(heap, error),
    }
}
