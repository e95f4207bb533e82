// One command from the front of bytes.
ghost use Rattle.std.specs.Prelude.{◌≡◌, suc, ◌<◌, ◌≤◌, length, IfOk};
ghost use Rattle.format.specs.Commands.{size, today};
ghost use Rattle.format.specs.Reading.{got, operands_read, set_at, first_read};
ghost use Rattle.format.specs.Values.{Lies, behind, rule_word, name_told, command_told, counted_told};
ghost use Rattle.format.specs.declared.command.Opcode.TheVariants.{Wire};

use crate::command::{Command, NAME_WIDTH, Opcode};
use crate::name;
use crate::refusal::Refusal;
use rules::Rule;
use signals::WireSet;

// The wire set that the first eight bytes write.
fn wire_set(bytes: &[u8]) -> WireSet
    requires { 8 ≤ length bytes.now }
    ensures { result.bits ≡ set_at 0 bytes.now }
{
    WireSet::from_be_bytes(*bytes.first_chunk().unwrap())
}

// The name in the field at the front of `operands`.
fn wire_name(operands: &[u8]) -> Result<&[u8], Refusal>
    requires { today.width ≤ length operands.now }
    ensures value { name_told result ≡ operands_read today Wire operands.now }
    ensures place { IfOk result (λ name. name.ref_ptr ≡ operands.entry.ref_ptr) }
{
    let field = &operands[..NAME_WIDTH];
    let length = name::name_length(field);
    let name = &field[..length];
    if name::is_spelled(name) && name::is_all_zero(&field[length..]) {
        Ok(name)
    } else {
        Err(Refusal::MalformedName)
    }
}

fn rule(operands: &[u8]) -> Rule
    requires { 26 ≤ length operands.now }
    ensures { got (rule_word result) 27 ≡ operands_read today Opcode.Rule operands.now }
{
    Rule {
        from: operands[0],
        to: operands[1],
        present: wire_set(&operands[2..]),
        absent: wire_set(&operands[10..]),
        emits: wire_set(&operands[18..]),
    }
}

// The command whose operands stand at the front of `operands`.
fn command(opcode: Opcode, operands: &[u8]) -> Result<Command<'_>, Refusal>
    requires { size today opcode ≤ length operands.now }
    ensures value { command_told (suc (size today opcode)) result ≡ operands_read today opcode operands.now }
    ensures place { IfOk result (Lies operands.entry.ref_ptr) }
{
    let command = match opcode {
        Opcode::Wire => Command::Wire {
            name: wire_name(operands)?,
        },
        Opcode::Machine => Command::Machine {
            states: operands[0],
        },
        Opcode::Rule => Command::Rule(rule(operands)),
        Opcode::Par => Command::Par,
        Opcode::Hide => Command::Hide {
            hidden: wire_set(operands),
        },
        Opcode::Unless => Command::Unless { wire: operands[0] },
        Opcode::Refine => Command::Refine { stage: operands[0] },
        Opcode::End => {
            if !operands.is_empty() {
                return Err(Refusal::BytesAfterEnd);
            }
            Command::End
        }
    };
    Ok(command)
}

// The first command of `bytes`, and the number of its bytes.
pub(crate) fn first_command(bytes: &[u8]) -> Result<(Command<'_>, usize), Refusal>
    ensures value { counted_told result ≡ first_read today bytes.now }
    ensures within { IfOk result (λ p. (0 < p.1) × (p.1 ≤ length bytes.now)) }
    ensures place { IfOk result (λ p. Lies (behind bytes.entry.ref_ptr 1) p.0) }
{
    let [byte, operands @ ..] = bytes else {
        return Err(Refusal::EndOfBytes);
    };
    let opcode = Opcode::try_from(*byte)?;
    if operands.len() < opcode.operand_bytes() {
        return Err(Refusal::MissingOperands);
    }
    let command = command(opcode, operands)?;
    Ok((command, 1 + opcode.operand_bytes()))
}
