// Writing a recipe. A writer is between parts, in a machine, or finished; each state is a type of its own, and a call
// moves a writer from one to the next.
ghost use Rattle.std.specs.Prelude.{◌≡◌, ℕ, List, [], ◌∷◌, take, IfOk};
ghost use Rattle.format.specs.Commands.{byte, wire, machine, par, hide, unless, refine, end};
ghost use Rattle.format.specs.Values.{rule_word};
ghost use Rattle.writing.specs.Writing.{put_answer, put_output, write_answer, written, Holds, EndedWith};
ghost use Rattle.writing.specs.Writers.{answered, Writes};

use crate::encode;
use format::command::{Opcode, Rule};
use format::name;
use format::refusal::Refusal;
use signals::WireSet;
use std::marker::Model;

// `Writer` and `MachineWriter` look like twins, and stay two: that each state is a moved type of its own, which holds
// a plain number, is a rule of the project. It is another that no writer holds its output, so each call takes `out`.
// Contracts see a writer as its position, and `Finished` as the recipe's length.

// A writer between parts: it writes every command but RULE.
#[derive(Debug, Drop)]
pub struct Writer {
    position: usize,
}

impl Model for Writer {
    ghost Value = { ℕ };

    ghost view = { λ writer. writer.position };
}

// A writer in a machine: it writes that machine's rules, until it is closed.
#[derive(Debug, Drop)]
pub struct MachineWriter {
    position: usize,
}

impl Model for MachineWriter {
    ghost Value = { ℕ };

    ghost view = { λ writer. writer.position };
}

// A writer behind END: it writes nothing, and knows the recipe's length.
#[derive(Debug, Drop)]
pub struct Finished {
    length: usize,
}

impl Model for Finished {
    ghost Value = { ℕ };

    ghost view = { λ finished. finished.length };
}

// A refused write hands back the writer as it was.
#[derive(Debug, Drop)]
pub struct Unwritten<W> {
    pub refusal: Refusal,
    pub writer: W,
}

// The refusal alone, for callers that let the writer go.
impl<W: Drop> From<Unwritten<W>> for Refusal {
    ghost from_gives = { λ unwritten refusal. refusal ≡ unwritten.refusal };

    fn from(unwritten: Unwritten<W>) -> Refusal {
        unwritten.refusal
    }
}

#[tactic(auto, using(crate::proofs::Outputs::writes))]
impl Writer {
    // A writer at the output's first byte.
    pub fn new() -> Writer
        ensures value { result ≡ 0 }
        ensures law { (out : List ℕ) → Holds (take result out) [] }
    {
        Writer { position: 0 }
    }

    // The position of the next byte to be written.
    pub fn position(&self) -> usize
        ensures { result ≡ self.now }
    {
        self.position
    }

    // Writes a command, and stands behind it.
    fn write(
        self,
        out: &mut [u8],
        opcode: Opcode,
        operands: &[u8],
    ) -> Result<Writer, Unwritten<Writer>>
        ensures value { result ≡ answered self (put_answer self (byte opcode ∷ operands.now) out.old) }
        ensures output { out.new ≡ put_output self (byte opcode ∷ operands.now) out.old }
    {
        encode::put(out, self.position, opcode, operands)
            .map(|position| Writer { position })
            .map_err(|refusal| Unwritten {
                refusal,
                writer: self,
            })
    }

    // Writes WIRE.
    pub fn wire(self, out: &mut [u8], name: &[u8]) -> Result<Writer, Unwritten<Writer>>
        ensures { Writes (wire name.now) self out.old result out.new }
    {
        if !name::is_well_formed(name) {
            return Err(Unwritten {
                refusal: Refusal::MalformedName,
                writer: self,
            });
        }
        self.write(out, Opcode::Wire, &encode::name_field(name))
    }

    // Writes MACHINE, and opens that machine: its rules come next.
    pub fn machine(self, out: &mut [u8], states: u8) -> Result<MachineWriter, Unwritten<Writer>>
        ensures { Writes (machine states) self out.old result out.new }
    {
        let writer = self.write(out, Opcode::Machine, &[states])?;
        Ok(MachineWriter {
            position: writer.position,
        })
    }

    // Writes PAR.
    pub fn par(self, out: &mut [u8]) -> Result<Writer, Unwritten<Writer>>
        ensures { Writes par self out.old result out.new }
    {
        self.write(out, Opcode::Par, &[])
    }

    // Writes HIDE.
    pub fn hide(self, out: &mut [u8], hidden: WireSet) -> Result<Writer, Unwritten<Writer>>
        ensures { Writes (hide hidden.bits) self out.old result out.new }
    {
        self.write(out, Opcode::Hide, &hidden.to_be_bytes())
    }

    // Writes UNLESS.
    pub fn unless(self, out: &mut [u8], wire: u8) -> Result<Writer, Unwritten<Writer>>
        ensures { Writes (unless wire) self out.old result out.new }
    {
        self.write(out, Opcode::Unless, &[wire])
    }

    // Writes REFINE.
    pub fn refine(self, out: &mut [u8], stage: u8) -> Result<Writer, Unwritten<Writer>>
        ensures { Writes (refine stage) self out.old result out.new }
    {
        self.write(out, Opcode::Refine, &[stage])
    }

    // Writes END, and finishes the recipe.
    pub fn end(self, out: &mut [u8]) -> Result<Finished, Unwritten<Writer>>
        ensures value { result ≡ answered self (write_answer end self out.old) }
        ensures output { out.new ≡ written end self out.old }
        ensures law { IfOk result (λ length. EndedWith self out.old length out.new) }
    {
        let writer = self.write(out, Opcode::End, &[])?;
        Ok(Finished {
            length: writer.position,
        })
    }
}

impl MachineWriter {
    // Writes RULE. The same answer as in `Writer::write`; one function for both would take the state, its position
    // and the next state.
    pub fn rule(self, out: &mut [u8], rule: Rule) -> Result<MachineWriter, Unwritten<MachineWriter>>
        ensures { Writes (rule_word rule) self out.old result out.new }
    {
        let operands = encode::rule_operands(rule);
        encode::put(out, self.position, Opcode::Rule, &operands)
            .map(|position| MachineWriter { position })
            .map_err(|refusal| Unwritten {
                refusal,
                writer: self,
            })
    }

    // Closes the machine. This writes nothing.
    pub fn close(self) -> Writer
        ensures { result ≡ self }
    {
        Writer {
            position: self.position,
        }
    }
}

impl Finished {
    // The length of the recipe.
    pub fn length(&self) -> usize
        ensures { result ≡ self.now }
    {
        self.length
    }
}
