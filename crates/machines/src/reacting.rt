// How rules react: for machines that stand alone, and for those of recipes, which hold their rules in other ways. So
// rules and a state are handed in, and no machine.
ghost use Rattle.std.specs.Prelude.{◌≡◌};
ghost use Rattle.parts.specs.Stages.{as_move};
ghost use Rattle.machines.specs.Reactions.{reaction, read_by_rules, emitted_by_rules};

use rules::Rule;
use signals::WireSet;

// The move of rules in a state at an input: that of the first rule in written order that fires. Where none fires, the
// state stays and nothing is emitted.
pub fn react(rules: &[Rule], state: u8, input: WireSet) -> (WireSet, u8, bool)
    ensures { as_move result ≡ reaction rules.now state input.bits }
{
    match rules.iter().find(|rule| rule.fires(state, input)) {
        Some(rule) => (rule.emits, rule.to, true),
        None => (WireSet::EMPTY, state, false),
    }
}

// The wires that the rules ask for or forbid.
pub fn rules_read(rules: &[Rule]) -> WireSet
    ensures { result.bits ≡ read_by_rules rules.now }
{
    rules.iter().fold(WireSet::EMPTY, |wires, rule| {
        wires.union(rule.present.union(rule.absent))
    })
}

// The wires that the rules emit.
pub fn rules_emit(rules: &[Rule]) -> WireSet
    ensures { result.bits ≡ emitted_by_rules rules.now }
{
    rules
        .iter()
        .fold(WireSet::EMPTY, |wires, rule| wires.union(rule.emits))
}
