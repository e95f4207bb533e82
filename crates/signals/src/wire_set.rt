// A set of wires.
ghost use Rattle.std.specs.Prelude.{◌≡◌};
ghost use Rattle.signals.specs.Bytes.{number, eight};
ghost use Rattle.signals.specs.Sets.{has, union, intersection, difference, subset, disjoint, UnionWires, IntersectionWires, DifferenceWires, SubsetWires, DisjointWires};

// The number of wires.
pub const WIRES: u8 = 64;

// A set of wires, which are numbered 0 to 63: wire w weighs 2 to the power w.
#[derive(Clone, Copy, Default, PartialEq, Eq, Debug)]
pub struct WireSet {
    pub bits: u64,
}

impl WireSet {
    // The set of no wire.
    pub const EMPTY: WireSet = WireSet { bits: 0 };

    // The set that eight bytes write, the most significant first.
    pub fn from_be_bytes(bytes: [u8; 8]) -> WireSet
        ensures { result.bits ≡ number bytes }
    {
        let bits = u64::from_be_bytes(bytes);
        WireSet { bits }
    }

    // The eight bytes that write the set, the most significant first.
    pub fn to_be_bytes(self) -> [u8; 8]
        ensures value { result ≡ eight self.bits }
        ensures back { number result ≡ self.bits }
    {
        self.bits.to_be_bytes()
    }

    // Whether `wire` is in the set. No number from 64 on is.
    pub fn contains(self, wire: u8) -> bool
        ensures { result ≡ has self.bits wire }
    {
        wire < WIRES && (self.bits >> wire) % 2 == 1
    }

    // The wires of either set.
    pub fn union(self, other: WireSet) -> WireSet
        ensures value { result.bits ≡ union self.bits other.bits }
        ensures wires { UnionWires self.bits other.bits result.bits }
    {
        let bits = self.bits | other.bits;
        WireSet { bits }
    }

    // The wires of both sets.
    pub fn intersection(self, other: WireSet) -> WireSet
        ensures value { result.bits ≡ intersection self.bits other.bits }
        ensures wires { IntersectionWires self.bits other.bits result.bits }
    {
        let bits = self.bits & other.bits;
        WireSet { bits }
    }

    // The wires of this set that `other` has not.
    pub fn difference(self, other: WireSet) -> WireSet
        ensures value { result.bits ≡ difference self.bits other.bits }
        ensures wires { DifferenceWires self.bits other.bits result.bits }
    {
        let bits = self.bits & !other.bits;
        WireSet { bits }
    }

    // Whether each wire of this set is in `other`.
    pub fn is_subset(self, other: WireSet) -> bool
        ensures value { result ≡ subset self.bits other.bits }
        ensures wires { SubsetWires self.bits other.bits result }
    {
        self.bits & other.bits == self.bits
    }

    // Whether the two sets share no wire.
    pub fn is_disjoint(self, other: WireSet) -> bool
        ensures value { result ≡ disjoint self.bits other.bits }
        ensures wires { DisjointWires self.bits other.bits result }
    {
        self.bits & other.bits == 0
    }
}
