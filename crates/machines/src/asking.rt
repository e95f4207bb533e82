// What is asked of a machine that stands alone. States and rules are handed on as they came: what holds both is the
// machine, which is not made yet.
ghost use Rattle.std.specs.Prelude.{◌≡◌, []};
ghost use Rattle.machines.specs.Questions.{accords_all, rule_question, rules_question, machine_question};

use crate::refusal::{MachineRefusal, RuleRefusal};
use rules::Rule;

// The most states that a machine has.
pub const MAX_STATES: u8 = 16;
// The most rules of a machine that stands alone.
pub const MAX_RULES: usize = 16;

// Whether the rule is in accord with each earlier one.
pub fn accords_with_all(earlier: &[Rule], rule: &Rule) -> bool
    ensures { result ≡ accords_all earlier.now rule.now }
{
    earlier.iter().all(|other| other.accords(rule))
}

// What is asked of a rule, with those written before it.
fn check_rule(states: u8, earlier: &[Rule], rule: &Rule) -> Result<(), RuleRefusal>
    ensures { result ≡ rule_question states earlier.now rule.now }
{
    if !rule.is_within(states) {
        return Err(RuleRefusal::NoSuchState);
    }
    if !rule.present.is_disjoint(rule.absent) {
        return Err(RuleRefusal::PresentAndAbsent);
    }
    if earlier.len() >= MAX_RULES {
        return Err(RuleRefusal::TooMany);
    }
    if !accords_with_all(earlier, rule) {
        return Err(RuleRefusal::Discord);
    }
    Ok(())
}

// What is asked of the rules of a machine, one after the other.
fn check_rules(states: u8, rules: &[Rule]) -> Result<(), MachineRefusal>
    ensures { result ≡ rules_question states [] rules.now }
{
    // with the index, which the refusal tells and which says what rules are earlier
    for (i, rule) in rules.iter().enumerate() {
        check_rule(states, &rules[..i], rule).map_err(|refusal| MachineRefusal::OfRule {
            rule: i,
            refusal,
        })?;
    }
    Ok(())
}

// What is asked of a machine.
pub(crate) fn check_machine(states: u8, rules: &[Rule]) -> Result<(), MachineRefusal>
    ensures { result ≡ machine_question states rules.now }
{
    if states == 0 || states > MAX_STATES {
        return Err(MachineRefusal::States);
    }
    check_rules(states, rules)
}
