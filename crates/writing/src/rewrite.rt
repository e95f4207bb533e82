// Rewriting a recipe: reading it, and writing what was read.
ghost use Rattle.std.specs.Prelude.{◌≡◌, ◌≤◌, ◌++◌, length, drop, None};
ghost use Rattle.std.specs.Result.{result_err};
ghost use Rattle.format.specs.Values.{word};
ghost use Rattle.writing.specs.Rewriting.{misplaced, opens, refusal_of, rewrite_answer, rewritten, RewritesSame};

use crate::pen::Pen;
use crate::writer::Writer;
use format::Command;
use format::reader::Reader;
use format::refusal::{RecipeError, Refusal};

// Whether a command is a RULE that stands where none may, which is elsewhere than in a machine.
fn is_misplaced(command: Command<'_>, in_machine: bool) -> bool
    ensures { result ≡ misplaced in_machine (word command.entry) }
{
    matches!(command, Command::Rule(_)) && !in_machine
}

// Whether a RULE may stand straight behind a command: it is MACHINE or RULE.
fn opens_machine(command: Command<'_>) -> bool
    ensures { result ≡ opens (word command.entry) }
{
    matches!(command, Command::Machine { .. } | Command::Rule(_))
}

// Reads a recipe to its end, and looks for a RULE that stands elsewhere than straight behind a MACHINE or a RULE.
fn check(recipe: &[u8]) -> Result<(), RecipeError>
    ensures { result_err result ≡ refusal_of recipe.now }
{
    let mut reader = Reader::new(recipe);
    // A flag, and no state with a value: all that is known of the command before is whether a RULE may follow it.
    let mut in_machine = false;
    // A loop, and no `for` over `Commands`: a misplaced RULE is told with its position, which the reader has.
    loop {
        let position = reader.position();
        let command = reader.read()?;
        if is_misplaced(command, in_machine) {
            return Err(RecipeError {
                refusal: Refusal::MisplacedRule,
                position,
            });
        }
        if command.is_end() {
            return Ok(());
        }
        in_machine = opens_machine(command);
    }
}

// Reads a recipe in which `check` found nothing, and writes each of its commands. Neither is refused.
fn copy(recipe: &[u8], out: &mut [u8]) -> usize
    requires checked { refusal_of recipe.now ≡ None }
    requires room { length recipe.now ≤ length out.old }
    ensures value { result ≡ length recipe.now }
    ensures output { out.new ≡ recipe.now ++ drop (length recipe.now) out.old }
{
    let mut reader = Reader::new(recipe);
    let mut pen = Pen::Between(Writer::new());
    // A loop, and no `for` over `Commands`: END is written by another call than the rest, and what that gives is the answer.
    loop {
        let command = reader.read().unwrap();
        if command.is_end() {
            return pen.close().end(out).unwrap().length();
        }
        pen = pen.write(out, command).unwrap();
    }
}

// Rewrites a recipe into `out`, and answers its length: what is written is what was read. Each RULE must stand
// straight behind a MACHINE or a RULE. A refusal changes no byte of the output. Want of space is asked last, and is
// about position 0. The output is a slice of the caller's with a length, and no `Vec`: rewriting allocates nothing,
// which is a rule of the project.
pub fn rewrite(recipe: &[u8], out: &mut [u8]) -> Result<usize, RecipeError>
    ensures value { result ≡ rewrite_answer recipe.now out.old }
    ensures output { out.new ≡ rewritten recipe.now out.old }
    ensures law { RewritesSame recipe.now out.old result out.new }
{
    check(recipe)?;
    if out.len() < recipe.len() {
        return Err(RecipeError {
            refusal: Refusal::NoSpace,
            position: 0,
        });
    }
    Ok(copy(recipe, out))
}
