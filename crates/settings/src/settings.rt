// The settings of hidden wires.
ghost use Rattle.std.specs.Prelude.{◌≡◌, ◌<◌, ◌∷◌, true, ◌≢◌};
ghost use Rattle.signals.specs.Sets.{subset};
ghost use Rattle.parts.specs.Operators.{settings};
ghost use Rattle.settings.specs.Tried.{untried, is_within};

use signals::WireSet;

// The settings that are left, by rising value. A copy of them goes on by itself.
#[derive(Clone, Copy)]
pub struct Settings {
    hidden: WireSet,
    // the setting that comes next, if one is left
    next: Option<WireSet>,
    ghost within: { is_within hidden.bits next ≡ true },
}

impl Settings {
    ghost use Rattle.settings.specs.Left.{settings_left};

    // All settings of these hidden wires.
    pub(crate) fn of(hidden: WireSet) -> Settings
        ensures { settings_left result ≡ settings hidden.bits }
    {
        Settings {
            hidden,
            next: Some(WireSet::EMPTY),
        }
    }
}

// The least larger subset of the hidden wires.
fn next_setting(hidden: WireSet, setting: WireSet) -> WireSet
    requires within { subset setting.bits hidden.bits ≡ true }
    requires not_last { setting.bits ≢ hidden.bits }
    ensures within { subset result.bits hidden.bits ≡ true }
    ensures above { setting.bits < result.bits }
    ensures untried { untried hidden.bits setting.bits ≡ setting.bits ∷ untried hidden.bits result.bits }
{
    WireSet {
        bits: setting.bits.wrapping_sub(hidden.bits) & hidden.bits,
    }
}

impl Iterator for Settings {
    ghost use Rattle.std.specs.Prelude.{length};
    ghost use Rattle.std.specs.Iterator.{YieldsFirstBy, at_most};
    ghost use Rattle.settings.specs.Left.{settings_left};

    type Item = WireSet;

    ghost next_gives = { YieldsFirstBy (λ setting. setting.bits) settings_left };

    ghost remaining = { λ s. at_most (length (settings_left s)) };

    fn next(&mut self) -> Option<WireSet> {
        let setting = self.next?;
        self.next = if setting == self.hidden {
            None
        } else {
            Some(next_setting(self.hidden, setting))
        };
        Some(setting)
    }
}
