// The operands of commands as bytes, and commands put into an output.
ghost use Rattle.std.specs.Prelude.{◌≡◌, ◌≤◌, ◌∷◌, length};
ghost use Rattle.format.specs.Commands.{byte, operands, today, wire};
ghost use Rattle.format.specs.Values.{rule_word};
ghost use Rattle.writing.specs.Writing.{put_answer, put_output};

use format::command::{NAME_WIDTH, Opcode, RULE_WIDTH, Rule};
use format::refusal::Refusal;

// Puts a command into the output from `position` on, if it fits, and answers the position behind it.
pub(crate) fn put(
    out: &mut [u8],
    position: usize,
    opcode: Opcode,
    operands: &[u8],
) -> Result<usize, Refusal>
    ensures value { result ≡ put_answer position (byte opcode ∷ operands.now) out.old }
    ensures output { out.new ≡ put_output position (byte opcode ∷ operands.now) out.old }
{
    if position > out.len() || out.len() - position < 1 + operands.len() {
        return Err(Refusal::NoSpace);
    }
    let end = position + 1 + operands.len();
    out[position] = u8::from(opcode);
    out[position + 1..end].copy_from_slice(operands);
    Ok(end)
}

// The field of a name: zero bytes fill the rest.
pub(crate) fn name_field(name: &[u8]) -> [u8; NAME_WIDTH]
    requires { length name.now ≤ today.width }
    ensures { result ≡ operands today (wire name.now) }
{
    let mut bytes = [0; NAME_WIDTH];
    bytes[..name.len()].copy_from_slice(name);
    bytes
}

pub(crate) fn rule_operands(rule: Rule) -> [u8; RULE_WIDTH]
    ensures { result ≡ operands today (rule_word rule) }
{
    let mut bytes = [0; RULE_WIDTH];
    bytes[0] = rule.from;
    bytes[1] = rule.to;
    bytes[2..10].copy_from_slice(&rule.present.to_be_bytes());
    bytes[10..18].copy_from_slice(&rule.absent.to_be_bytes());
    bytes[18..26].copy_from_slice(&rule.emits.to_be_bytes());
    bytes
}
