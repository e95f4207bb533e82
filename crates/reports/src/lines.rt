// Single lines.
ghost use Rattle.std.specs.Prelude.{◌≡◌, IfOk, string_bytes};
ghost use Rattle.format.specs.Refusals.{refusal_number};
ghost use Rattle.reports.specs.Lines.{load_line};

use format::RecipeError;
use std::alloc::{AllocError, Global};

// The line that tells a refusal: load, its number and its position.
pub fn load_line(heap: Global, error: RecipeError) -> Result<String, AllocError>
    ensures { IfOk result (λ s. string_bytes s ≡ load_line (refusal_number error.refusal) error.position) }
{
    format!(in heap; "{error}\n")
}
