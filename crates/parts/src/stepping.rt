// Parts stepped with inputs in turn.
ghost use Rattle.std.specs.Prelude.{◌≡◌, ◌≤◌, [], ◌∷◌, length, take};
ghost use Rattle.parts.specs.Courses.{told, after};
ghost use Rattle.parts.specs.Calls.{Unmoved};
ghost use Rattle.parts.specs.Runs.{numbers, ran_in, report, written, behind_all, RanIn, Leads};
ghost use Rattle.parts.specs.Keeping.{Keeps};

use crate::fault::{Fault, SHORT_LIST};
use crate::part::Part;
use signals::WireSet;

// What a run answers: the ticks that were accepted, and the fault that ended it. No Result, since both are told where a
// tick is refused.
#[derive(Clone, Copy, PartialEq, Eq, Debug)]
pub struct RunReport {
    pub ticks: usize,
    pub fault: Option<Fault>,
}

// Step a part once, wherever earlier calls led it. A function of its own: a parameter's type tells the proof that the
// set is one of 64 wires, and an element of a list does not.
fn tick<P: Part>(part: &mut P, input: WireSet) -> Result<WireSet, Fault>
    ensures value { told result ≡ P.Part.course part.old [] input.bits }
    ensures course { P.Part.course part.new ≡ after (P.Part.course part.old) input.bits }
    ensures kept { Keeps P.Part.fresh P.Part.reads P.Part.emits P.Part.plan part.old part.new }
    ensures reached { Leads (P.Part.plan part.old) (P.Part.course part.old) (input.bits ∷ []) (P.Part.course part.new) }
{
    part.step(input)
}

// Step a part with the inputs in turn, to the end or the first fault. The outputs of accepted ticks are written,
// places behind them stay. With a shorter output list nothing is stepped and nothing written. That a run is over two
// slices and allocates nothing is a rule of the project.
pub fn run<P: Part>(part: &mut P, inputs: &[WireSet], outputs: &mut [WireSet]) -> RunReport
    ensures value { result ≡ report (ran_in (P.Part.course part.old) (numbers inputs.now) (length outputs.old)) }
    ensures outputs { numbers outputs.new ≡ written (ran_in (P.Part.course part.old) (numbers inputs.now) (length outputs.old)) (numbers outputs.old) }
    ensures course { P.Part.course part.new ≡ behind_all (P.Part.course part.old) (take result.ticks (numbers inputs.now)) }
    ensures within { result.ticks ≤ length inputs.now }
    ensures unmoved { Unmoved (length inputs.now) (length outputs.old) part.old part.new }
    ensures kept { Keeps P.Part.fresh P.Part.reads P.Part.emits P.Part.plan part.old part.new }
    ensures reached { Leads (P.Part.plan part.old) (P.Part.course part.old) (take result.ticks (numbers inputs.now)) (P.Part.course part.new) }
    ensures law { RanIn (P.Part.course part.old) (numbers inputs.now) (numbers outputs.old) (numbers outputs.new) result.ticks result.fault (P.Part.course part.new) }
{
    if outputs.len() < inputs.len() {
        return RunReport {
            ticks: 0,
            fault: Some(SHORT_LIST),
        };
    }
    // Tried with `zip` over `outputs.iter_mut()`: behind such a loop nothing is known of the outputs, and the proof
    // did not close. So the places are written by their index, which the report tells besides.
    for (i, input) in inputs.iter().enumerate() {
        match tick(part, *input) {
            Ok(output) => outputs[i] = output,
            Err(fault) => {
                return RunReport {
                    ticks: i,
                    fault: Some(fault),
                };
            }
        }
    }
    RunReport {
        ticks: inputs.len(),
        fault: None,
    }
}
