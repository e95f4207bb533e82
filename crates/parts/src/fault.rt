// Faults: why a tick is refused.
use std::error::Error;
use std::fmt;

// A refused tick tells its cause, the place it arose at, and a count.
#[derive(Clone, Copy, PartialEq, Eq, Debug)]
pub struct Fault {
    // A number, and no enum: any part may have causes of its own, so an enum would need a case for any number.
    pub cause: u8,
    pub place: u16,
    pub count: u16,
}

// A list of the caller has no room for what is asked for.
pub const SHORT_LIST: Fault = Fault {
    cause: 34,
    place: 0,
    count: 0,
};

impl fmt::Display for Fault {
    ghost use Rattle.std.specs.Prelude.{Some};
    ghost use Rattle.parts.specs.Faults.{fault_text};

    ghost output = { λ f. Some (fault_text f) };

    fn fmt<W: fmt::Write>(&self, f: &mut fmt::Formatter<W>) -> fmt::Result {
        write!(f, "fault {} {} {}", self.cause, self.place, self.count)
    }
}

impl Error for Fault {}
