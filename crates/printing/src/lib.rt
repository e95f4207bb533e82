// What the programs print of ticks and calls.
#![tactic(auto)]

ghost use Rattle.std.specs.Prelude.{◌≡◌, IfOk, Some, string_bytes};
ghost use Rattle.printing.specs.Lines.{tick_text, refused_text, reply_text};

use parts::{Fault, Reply};
use signals::WireSet;
use signals::wire_set::WIRES;
use std::alloc::{AllocError, Global};
use std::fmt;

// A tick's line: its number, and the wires that it emits, or a hyphen. It is printed without memory.
#[derive(Clone, Copy)]
pub struct TickLine {
    pub tick: usize,
    pub outputs: WireSet,
}

impl fmt::Display for TickLine {
    ghost output = { λ l. Some (tick_text l.tick l.outputs.bits) };

    fn fmt<W: fmt::Write>(&self, f: &mut fmt::Formatter<W>) -> fmt::Result {
        if self.outputs == WireSet::EMPTY {
            return write!(f, "{} -\n", self.tick);
        }
        write!(f, "{}", self.tick)?;
        for wire in 0..WIRES {
            if self.outputs.contains(wire) {
                write!(f, " {wire}")?;
            }
        }
        f.write_str("\n")
    }
}

// The line of a refused tick: its number, and the fault.
#[derive(Clone, Copy)]
pub struct RefusedLine {
    pub tick: usize,
    pub fault: Fault,
}

impl fmt::Display for RefusedLine {
    ghost output = { λ l. Some (refused_text l.tick l.fault) };

    fn fmt<W: fmt::Write>(&self, f: &mut fmt::Formatter<W>) -> fmt::Result {
        write!(f, "{} {}\n", self.tick, self.fault)
    }
}

// A call's line: its number, and what it is answered with.
#[derive(Clone, Copy)]
pub struct ReplyLine {
    pub number: usize,
    pub reply: Reply,
}

impl fmt::Display for ReplyLine {
    ghost output = { λ l. Some (reply_text l.number l.reply) };

    fn fmt<W: fmt::Write>(&self, f: &mut fmt::Formatter<W>) -> fmt::Result {
        let tick = self.number;
        match self.reply {
            Reply::Answer(Ok(outputs)) => TickLine { tick, outputs }.fmt(f),
            Reply::Answer(Err(fault)) => RefusedLine { tick, fault }.fmt(f),
            Reply::Restarted => write!(f, "{tick} restarted\n"),
        }
    }
}

// A tick's line as a text.
pub fn tick_line(heap: Global, tick: usize, outputs: WireSet) -> Result<String, AllocError>
    ensures { IfOk result (λ s. string_bytes s ≡ tick_text tick outputs.bits) }
{
    format!(in heap; "{}", TickLine { tick, outputs })
}

// The line of a refused tick as a text.
pub fn refused_line(heap: Global, tick: usize, fault: Fault) -> Result<String, AllocError>
    ensures { IfOk result (λ s. string_bytes s ≡ refused_text tick fault) }
{
    format!(in heap; "{}", RefusedLine { tick, fault })
}

// A call's line as a text.
pub fn reply_line(heap: Global, number: usize, reply: Reply) -> Result<String, AllocError>
    ensures { IfOk result (λ s. string_bytes s ≡ reply_text number reply) }
{
    format!(in heap; "{}", ReplyLine { number, reply })
}
