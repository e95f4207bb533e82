// Counters: how they are made, and how they react.
ghost use Rattle.std.specs.Prelude.{◌≡◌, ◌<◌, ◌≤◌};

use crate::fault::Fault;
use crate::part::Part;
use signals::{Wire, WireSet};

// Counts the ticks that have its in wire. In each n-th of them it emits its out wire, and counts from 0 again.
#[derive(Drop)]
pub struct Counter {
    input: Wire,
    output: Wire,
    number: u64,
    tally: u64,
    ghost within: { number ≤ 60000 },
    ghost below: { tally < number },
}

// Why there is no such counter, with the number by which people know the refusal.
#[derive(Clone, Copy, PartialEq, Eq, Debug)]
pub enum CounterRefusal {
    // The number to count to is not 1 to 60,000.
    Number = 36,
    // A wire is not below 64.
    Wire = 37,
}

impl CounterRefusal {
    ghost use Rattle.parts.specs.Counters.{counter_refusal_number};

    // The number by which people know the refusal. Each enum of refusals has such a call: a trait for all would ask each
    // for its numbers again.
    pub fn number(self) -> u8
        ensures { result ≡ counter_refusal_number self }
    {
        self as u8
    }
}

impl Counter {
    ghost use Rattle.std.specs.Prelude.{IfOk};
    ghost use Rattle.signals.specs.Sets.{has};
    ghost use Rattle.parts.specs.Counters.{Counts, counting, counter_course, counter_made, counter_making};

    // A counter that has counted nothing yet.
    pub fn new(input: u8, output: u8, number: u64) -> Result<Counter, CounterRefusal>
        ensures value { counter_made result ≡ counter_making input output number }
        ensures law { IfOk result (λ s. Counts (counting s) (counter_course (counting s) s.tally)) }
    {
        if !(1..=60_000).contains(&number) {
            return Err(CounterRefusal::Number);
        }
        let (Ok(input), Ok(output)) = (Wire::try_from(input), Wire::try_from(output)) else {
            return Err(CounterRefusal::Wire);
        };
        Ok(Counter {
            input,
            output,
            number,
            tally: 0,
        })
    }

    // Whether a tick with the input counts.
    fn counts(&self, input: WireSet) -> bool
        ensures { result ≡ has input.bits self.now.input }
    {
        input.contains(u8::from(self.input))
    }
}

impl Part for Counter {
    ghost use Rattle.std.specs.Prelude.{◌^◌};
    ghost use Rattle.std.proofs.Common.{sym};
    ghost use Rattle.parts.specs.Counters.{counting, counter_course};
    ghost use Rattle.parts.specs.Trees.{part};
    ghost use Rattle.parts.specs.Counting.{counter_lawful, counter_unread, counter_named};
    ghost use Rattle.parts.specs.Leaves.{part_planned};

    ghost course = { λ s. counter_course (counting s) s.tally };

    ghost fresh = { λ s. counter_course (counting s) 0 };

    ghost reads = { λ s. 2 ^ s.input };

    ghost emits = { λ s. 2 ^ s.output };

    ghost plan = { λ s. part (counter_course (counting s) 0) };

    ghost lawful = { λ s. (counter_lawful (counting s) s.tally, counter_lawful (counting s) 0) };

    ghost unread = { λ s. (counter_unread (counting s) s.tally, counter_unread (counting s) 0) };

    ghost named = { λ s. (counter_named (counting s) s.tally, counter_named (counting s) 0) };

    ghost planned = { λ s. sym (part_planned (counter_course (counting s) 0) (counter_lawful (counting s) 0)) };

    fn wires_read(&self) -> WireSet {
        WireSet::from(self.input)
    }

    fn wires_emitted(&self) -> WireSet {
        WireSet::from(self.output)
    }

    fn look(&self, input: WireSet) -> Result<WireSet, Fault> {
        if self.counts(input) && self.tally + 1 == self.number {
            Ok(self.wires_emitted())
        } else {
            Ok(WireSet::EMPTY)
        }
    }

    fn step(&mut self, input: WireSet) -> Result<WireSet, Fault> {
        let answer = self.look(input);
        if self.counts(input) {
            // a comparison and no remainder, which would divide at each counted tick
            self.tally = if self.tally + 1 == self.number {
                0
            } else {
                self.tally + 1
            };
        }
        answer
    }

    fn restart(&mut self) {
        self.tally = 0;
    }
}
