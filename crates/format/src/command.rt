// The commands of a recipe.
ghost use Rattle.std.specs.Prelude.{◌≡◌};
ghost use Rattle.std.specs.Option.{ok_or};
ghost use Rattle.format.specs.Commands.{byte, command_of, size, today};
ghost use Rattle.format.specs.Reading.{is_end};
ghost use Rattle.format.specs.Values.{word};
ghost use Rattle.format.specs.declared.refusal.Refusal.TheVariants.{UnknownCommand};

use crate::refusal::Refusal;
pub use rules::Rule;
use signals::WireSet;

// The eight kinds of commands, and the byte that begins each.
#[derive(Clone, Copy, PartialEq, Eq, Debug)]
pub enum Opcode {
    Wire = 0x01,
    Machine = 0x02,
    Rule = 0x03,
    Par = 0x04,
    Hide = 0x05,
    Unless = 0x06,
    Refine = 0x07,
    End = 0x08,
}

// One command of a recipe. The name of a WIRE is that part of the recipe, without the zero bytes that fill its field.
#[derive(Clone, Copy, PartialEq, Eq, Debug)]
pub enum Command<'a> {
    Wire { name: &'a [u8] },
    Machine { states: u8 },
    Rule(Rule),
    Par,
    Hide { hidden: WireSet },
    Unless { wire: u8 },
    Refine { stage: u8 },
    End,
}

// The bytes of a name's field.
pub const NAME_WIDTH: usize = 24;
// The bytes of a RULE's operands.
pub const RULE_WIDTH: usize = 26;

// The byte that begins a command of this kind.
impl From<Opcode> for u8 {
    ghost from_gives = { λ opcode b. b ≡ byte opcode };

    fn from(opcode: Opcode) -> u8 {
        opcode as u8
    }
}

// The kind of command that a byte begins, if it begins one.
impl TryFrom<u8> for Opcode {
    type Error = Refusal;

    ghost try_from_gives = { λ b r. r ≡ ok_or (command_of today b) UnknownCommand };

    fn try_from(byte: u8) -> Result<Opcode, Refusal> {
        match byte {
            0x01 => Ok(Opcode::Wire),
            0x02 => Ok(Opcode::Machine),
            0x03 => Ok(Opcode::Rule),
            0x04 => Ok(Opcode::Par),
            0x05 => Ok(Opcode::Hide),
            0x06 => Ok(Opcode::Unless),
            0x07 => Ok(Opcode::Refine),
            0x08 => Ok(Opcode::End),
            _ => Err(Refusal::UnknownCommand),
        }
    }
}

impl Opcode {
    // How many bytes the operands of such a command take.
    pub(crate) fn operand_bytes(self) -> usize
        ensures { result ≡ size today self }
    {
        match self {
            Opcode::Wire => NAME_WIDTH,
            Opcode::Rule => RULE_WIDTH,
            Opcode::Hide => 8,
            Opcode::Machine | Opcode::Unless | Opcode::Refine => 1,
            Opcode::Par | Opcode::End => 0,
        }
    }
}

impl Command<'_> {
    // Whether this command is END, behind which a recipe has none.
    pub fn is_end(&self) -> bool
        ensures { result ≡ is_end (word self.now) }
    {
        matches!(self, Command::End)
    }
}
