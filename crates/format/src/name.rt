// Names of wires.
ghost use Rattle.std.specs.Prelude.{◌≡◌, ◌≤◌, length, nat_eq};
ghost use Rattle.std.specs.List.{list_all};
ghost use Rattle.format.specs.Commands.{today};
ghost use Rattle.format.specs.Names.{name_byte, spelled, well_formed, before_zero};

use crate::command::NAME_WIDTH;

fn is_name_byte(byte: u8) -> bool
    ensures { result ≡ name_byte byte }
{
    byte.is_ascii_uppercase() || byte.is_ascii_digit() || byte == b'-'
}

// A capital letter, then capital letters, digits and hyphens.
pub(crate) fn is_spelled(name: &[u8]) -> bool
    ensures { result ≡ spelled name.now }
{
    match name {
        [] => false,
        [first, rest @ ..] => {
            first.is_ascii_uppercase() && rest.iter().all(|&byte| is_name_byte(byte))
        }
    }
}

// Whether a name can stand in a recipe.
pub fn is_well_formed(name: &[u8]) -> bool
    ensures { result ≡ well_formed today.width name.now }
{
    is_spelled(name) && name.len() <= NAME_WIDTH
}

// The length of the name in a field: its bytes before the first zero byte.
pub(crate) fn name_length(field: &[u8]) -> usize
    ensures value { result ≡ length (before_zero field.now) }
    ensures within { result ≤ length field.now }
{
    field
        .iter()
        .position(|&byte| byte == 0)
        .unwrap_or(field.len())
}

pub(crate) fn is_all_zero(bytes: &[u8]) -> bool
    ensures { result ≡ list_all (λ b. nat_eq b 0) bytes.now }
{
    bytes.iter().all(|&byte| byte == 0)
}
