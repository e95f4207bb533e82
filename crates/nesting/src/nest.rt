// A nesting: an inhibition of a refined machine, whose inside is an encapsulation of a machine and a counter side by
// side.
ghost use Rattle.std.specs.Prelude.{◌≡◌, [], length, take, IfOk, IfErr};
ghost use Rattle.std.specs.Result.{result_err};
ghost use Rattle.parts.specs.Trees.{inhibition, moved, refinement, encapsulation, parallel, staged, part};
ghost use Rattle.parts.specs.Counters.{counting, counter_course};
ghost use Rattle.machines.specs.Made.{machine_rules};
ghost use Rattle.machines.specs.Machines.{machine_moves, machine_course};
ghost use Rattle.parts.specs.Calls.{Promise, RestKept, calls_of, replies_of};
ghost use Rattle.nesting.specs.Nests.{unmade, refused_for};

use machines::{Counter, Machine};
use operators::{Encapsulation, Inhibition, OperatorRefusal, Parallel, Refinement};
use parts::{Call, Fault, Part, Reply, perform};
use signals::WireSet;

// All four operators, over two machines and a counter.
pub type Nest = Inhibition<Refinement<Machine, Encapsulation<Parallel<Machine, Counter>>>>;

// The numbers of the operators: the wire that inhibits, the stage that is refined, and the hidden wires with their place.
#[derive(Clone, Copy, PartialEq, Eq, Debug)]
pub struct Numbers {
    pub wire: u8,
    pub stage: u8,
    pub hidden: WireSet,
    pub place: u16,
}

// Why nothing was performed.
#[derive(Clone, Copy, PartialEq, Eq, Debug)]
pub enum NestRefusal {
    // An operator was not made.
    NotMade(OperatorRefusal),
    // The list for the replies is too short.
    ShortList(Fault),
}

// The nesting, just made.
pub fn make_nest(
    numbers: Numbers,
    refined: Machine,
    left: Machine,
    right: Counter,
) -> Result<Nest, OperatorRefusal>
    ensures refused { result_err result ≡ unmade numbers.hidden.bits numbers.wire }
    ensures begins { IfOk result (λ n. ⟦<Nest as Part>⟧.course n ≡ ⟦<Nest as Part>⟧.fresh n) }
    ensures plan { IfOk result (λ n. ⟦<Nest as Part>⟧.plan n ≡ inhibition numbers.wire (moved (refinement numbers.stage (staged (machine_moves (machine_rules refined) 0)) (encapsulation numbers.hidden.bits numbers.place (parallel (part (machine_course (machine_rules left) 0)) (part (counter_course (counting right) 0))))))) }
{
    let both = Parallel::new(left, right);
    let inside = match Encapsulation::new(numbers.hidden, numbers.place, both) {
        Ok(inside) => inside,
        Err(unmade) => return Err(unmade.refusal),
    };
    let staged = Refinement::new(numbers.stage, refined, inside);
    match Inhibition::new(numbers.wire, staged) {
        Ok(nest) => Ok(nest),
        Err(unmade) => Err(unmade.refusal),
    }
}

// Makes the nesting, performs calls on it and hands out their replies. All that is promised of compositions is promised of
// these calls, with the tree written out.
pub fn perform_nested(
    numbers: Numbers,
    refined: Machine,
    left: Machine,
    right: Counter,
    calls: &[Call],
    replies: &mut [Reply],
) -> Result<Nest, NestRefusal>
    ensures refused { result_err result ≡ refused_for (unmade numbers.hidden.bits numbers.wire) (length calls.now) (length replies.old) }
    ensures unwritten { IfErr result (λ e. replies.new ≡ replies.old) }
    ensures stay { IfOk result (λ n. RestKept calls.now replies.old replies.new) }
    ensures promise { IfOk result (λ n. Promise (inhibition numbers.wire (moved (refinement numbers.stage (staged (machine_moves (machine_rules refined) 0)) (encapsulation numbers.hidden.bits numbers.place (parallel (part (machine_course (machine_rules left) 0)) (part (counter_course (counting right) 0))))))) [] (calls_of calls.now) (replies_of (take (length calls.now) replies.new)) (⟦<Nest as Part>⟧.course n)) }
{
    let mut nest = match make_nest(numbers, refined, left, right) {
        Ok(nest) => nest,
        Err(refusal) => return Err(NestRefusal::NotMade(refusal)),
    };
    match perform(&mut nest, calls, replies) {
        Ok(()) => Ok(nest),
        Err(fault) => Err(NestRefusal::ShortList(fault)),
    }
}
