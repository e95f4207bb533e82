// A writer in whichever of its two open states it is, for commands that are known only when they come.
ghost use Rattle.std.specs.Prelude.{◌≡◌, false};
ghost use Rattle.writing.specs.Pens.{place, within, told, pen_answer, pen_output};
ghost use Rattle.format.specs.Reading.{is_end};
ghost use Rattle.format.specs.Values.{word};

use crate::writer::{MachineWriter, Writer};
use format::command::Command;
use format::refusal::Refusal;

#[derive(Drop)]
pub(crate) enum Pen {
    Between(Writer),
    InMachine(MachineWriter),
}

impl Pen {
    // The writer between parts: one in a machine is closed.
    pub(crate) fn close(self) -> Writer
        ensures { result ≡ place self }
    {
        match self {
            Pen::Between(writer) => writer,
            Pen::InMachine(writer) => writer.close(),
        }
    }

    // Writes a command other than END.
    pub(crate) fn write(self, out: &mut [u8], command: Command<'_>) -> Result<Pen, Refusal>
        requires { is_end (word command) ≡ false }
        ensures value { told result ≡ pen_answer (within self) (word command.entry) (place self) out.old }
        ensures output { out.new ≡ pen_output (within self) (word command.entry) (place self) out.old }
    {
        // a match, and no closure: the command is data that was read
        match command {
            Command::Wire { name } => Ok(Pen::Between(self.close().wire(out, name)?)),
            Command::Machine { states } => Ok(Pen::InMachine(self.close().machine(out, states)?)),
            Command::Rule(rule) => match self {
                Pen::Between(_) => Err(Refusal::MisplacedRule),
                Pen::InMachine(writer) => Ok(Pen::InMachine(writer.rule(out, rule)?)),
            },
            Command::Par => Ok(Pen::Between(self.close().par(out)?)),
            Command::Hide { hidden } => Ok(Pen::Between(self.close().hide(out, hidden)?)),
            Command::Unless { wire } => Ok(Pen::Between(self.close().unless(out, wire)?)),
            Command::Refine { stage } => Ok(Pen::Between(self.close().refine(out, stage)?)),
            Command::End => unreachable!(),
        }
    }
}
