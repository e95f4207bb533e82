// Sets of hidden wires.
ghost use Rattle.std.specs.Prelude.{◌≡◌, ◌≤◌};
ghost use Rattle.parts.specs.Operators.{settings, under};
ghost use Rattle.settings.specs.Tried.{size};
ghost use Rattle.settings.specs.Hiding.{too_many_hidden, HidesFew};
ghost use Rattle.settings.specs.Left.{settings_left};

use crate::settings::Settings;
use signals::WireSet;
use std::marker::Model;

// The most wires that can be hidden at once.
pub const MAX_HIDDEN: u32 = 12;

// A set of at most 12 wires.
#[derive(Clone, Copy, PartialEq, Eq, Debug)]
pub struct Hidden {
    set: WireSet,
}

// A set has more than 12 wires.
#[derive(Clone, Copy, PartialEq, Eq, Debug)]
pub struct TooManyHidden;

impl Model for Hidden {
    ghost use Rattle.std.specs.Prelude.{ℕ};

    ghost Value = { ℕ };

    ghost use Rattle.settings.specs.Tried.{IsFew};

    ghost view = { λ h. h.set.bits };

    ghost invariant = { λ h. IsFew h.set.bits };

    ghost inverse = { λ bits. record { set = record { bits = bits } } };
}

impl TryFrom<WireSet> for Hidden {
    type Error = TooManyHidden;

    ghost try_from_gives = { λ set r. HidesFew set.bits r };

    fn try_from(set: WireSet) -> Result<Hidden, TooManyHidden> {
        if set.bits.count_ones() > MAX_HIDDEN {
            return Err(TooManyHidden);
        }
        Ok(Hidden { set })
    }
}

impl Hidden {
    // The hidden wires.
    pub fn wires(&self) -> WireSet
        ensures value { result.bits ≡ self.now }
        ensures few { size result.bits ≤ 12 }
    {
        self.set
    }

    // The settings of the hidden wires: all subsets of them, by rising value.
    pub fn settings(&self) -> Settings
        ensures { settings_left result ≡ settings self.now }
    {
        Settings::of(self.set)
    }

    // What reaches the inside under a setting: the input without the hidden wires, and the setting.
    pub fn input(&self, input: WireSet, setting: WireSet) -> WireSet
        ensures { result.bits ≡ under self.now input.bits setting.bits }
    {
        input.difference(self.set).union(setting)
    }
}

impl TooManyHidden {
    // The number by which people know the refusal.
    pub fn number(self) -> u8
        ensures { result ≡ too_many_hidden }
    {
        // one value, so no enum with numbers
        16
    }
}
