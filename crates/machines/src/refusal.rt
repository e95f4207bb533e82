// Refusals of machines.
ghost use Rattle.std.specs.Prelude.{◌≡◌};
ghost use Rattle.machines.specs.Refusals.{rule_refusal_number, machine_refusal_number};

// What is wrong with a rule.
#[derive(Clone, Copy, PartialEq, Eq, Debug)]
pub enum RuleRefusal {
    // From or to is not below the number of states.
    NoSuchState = 10,
    // A wire is both present and absent.
    PresentAndAbsent = 12,
    // 16 rules stand before it.
    TooMany = 13,
    // An earlier rule of the state can fire with it, and leads elsewhere or emits something else.
    Discord = 14,
}

// Why there is no such machine.
#[derive(Clone, Copy, PartialEq, Eq, Debug)]
pub enum MachineRefusal {
    // There are not 1 to 16 states.
    States,
    // A rule is refused; rules are counted from 0.
    OfRule { rule: usize, refusal: RuleRefusal },
}

impl RuleRefusal {
    // The number by which people know the refusal. Each enum of refusals has such a call: a trait for all would ask each
    // for its numbers again.
    pub fn number(self) -> u8
        ensures { result ≡ rule_refusal_number self }
    {
        self as u8
    }
}

impl MachineRefusal {
    // The number by which people know the refusal.
    pub fn number(self) -> u8
        ensures { result ≡ machine_refusal_number self }
    {
        // by a match, since a case with data has no number of its own
        match self {
            MachineRefusal::States => 7,
            MachineRefusal::OfRule { refusal, .. } => refusal.number(),
        }
    }
}
