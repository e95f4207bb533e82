// When rules fire, and which may stand together.
ghost use Rattle.std.specs.Prelude.{◌≡◌, Decides};
ghost use Rattle.rules.specs.Rules.{granted, fires, Fires, within, together, accord, Accord};

use crate::rule::Rule;
use signals::WireSet;

impl Rule {
    // Whether all of `present` and none of `absent` is in the input.
    fn is_granted(&self, input: WireSet) -> bool
        ensures { result ≡ granted self.now input.bits }
    {
        self.present.is_subset(input) && self.absent.is_disjoint(input)
    }

    // Whether the rule fires in a state, at an input.
    pub fn fires(&self, state: u8, input: WireSet) -> bool
        ensures value { result ≡ fires self.now state input.bits }
        ensures law { Decides result (Fires self.now state input.bits) }
    {
        self.from == state && self.is_granted(input)
    }

    // Whether some input fires both.
    fn can_fire_with(&self, other: &Rule) -> bool
        ensures { result ≡ together self.now other.now }
    {
        let asked = self.present.union(other.present);
        let forbidden = self.absent.union(other.absent);
        self.from == other.from && asked.is_disjoint(forbidden)
    }

    // Whether the two rules lead to the same state with the same outputs, if some input fires both.
    pub fn accords(&self, other: &Rule) -> bool
        ensures value { result ≡ accord self.now other.now }
        ensures law { Decides result (Accord self.now other.now) }
    {
        !self.can_fire_with(other) || (self.to == other.to && self.emits == other.emits)
    }

    // Whether from and to are below the number of states.
    pub fn is_within(&self, states: u8) -> bool
        ensures { result ≡ within states self.now }
    {
        self.from < states && self.to < states
    }
}
