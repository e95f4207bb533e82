// Operators that are not made.
use std::fmt;

// Why an operator is not made, with the number by which people know it.
#[derive(Clone, Copy, PartialEq, Eq, Debug)]
pub enum OperatorRefusal {
    // More than 12 wires are to be hidden. What `settings` refuses with `TooManyHidden`, told with the part that
    // comes back.
    TooManyHidden = 16,
    // The wire is not below 64.
    Wire = 37,
}

impl OperatorRefusal {
    ghost use Rattle.std.specs.Prelude.{◌≡◌};
    ghost use Rattle.operators.specs.Refusals.{operator_refusal_number};

    // The number by which people know the refusal. Each enum of refusals has such a call: a trait for all would ask each
    // for its numbers again.
    pub fn number(self) -> u8
        ensures { result ≡ operator_refusal_number self }
    {
        self as u8
    }
}

// The refusal, and the part inside as it was handed in. `Unwritten` of the crate `writing` has the same shape. All
// that the two crates share is `signals`, which is no place for either.
#[derive(Drop)]
pub struct Unmade<P> {
    pub refusal: OperatorRefusal,
    pub inside: P,
}

// By hand, since a derive would ask that the part inside can be printed.
impl<P> fmt::Debug for Unmade<P> {
    fn fmt<W: fmt::Write>(&self, f: &mut fmt::Formatter<W>) -> fmt::Result {
        let refusal = self.refusal;
        write!(f, "Unmade {{ refusal: {refusal:?}, .. }}")
    }
}
