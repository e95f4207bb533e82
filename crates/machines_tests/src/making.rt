// Making machines: each refusal, alone and with later ones also true.
use crate::example::{A, B, NONE, on_a};
use machines::{Machine, MachineRefusal};
use rules::Rule;
use signals::WireSet;

// The number of the refusal, which is what people know, and the place of the refused rule from 0; nothing where the
// machine is made.
fn refused(states: u8, rules: &[Rule]) -> Option<(u8, Option<usize>)> {
    let refusal = Machine::new(states, rules).err()?;
    let place = match refusal {
        MachineRefusal::States => None,
        MachineRefusal::OfRule { rule, .. } => Some(rule),
    };
    Some((refusal.number(), place))
}

// A rule from 0 to a state, when A is there and `absent` is not.
fn without(absent: WireSet, to: u8, emits: WireSet) -> Rule {
    Rule {
        from: 0,
        to,
        present: A,
        absent,
        emits,
    }
}

#[test]
fn one_to_sixteen_states(rt: HostRuntime) {
    assert_eq!(rt; refused(0, &[]), Some((7, None)));
    assert_eq!(rt; refused(1, &[]), None);
    assert_eq!(rt; refused(16, &[on_a(15, 15, NONE)]), None);
    assert_eq!(rt; refused(17, &[]), Some((7, None)));
    assert_eq!(rt; refused(255, &[]), Some((7, None)));
    // the rule is refused too, but the states are asked for first
    assert_eq!(rt; refused(17, &[on_a(17, 0, NONE)]), Some((7, None)));
}

#[test]
fn states_that_do_not_exist(rt: HostRuntime) {
    assert_eq!(rt; refused(2, &[on_a(2, 0, NONE)]), Some((10, Some(0))));
    assert_eq!(rt; refused(2, &[on_a(0, 2, NONE)]), Some((10, Some(0))));
    assert_eq!(rt; refused(2, &[on_a(1, 1, NONE)]), None);
    assert_eq!(rt;
        refused(2, &[on_a(0, 1, NONE), on_a(1, 2, NONE)]),
        Some((10, Some(1)))
    );
    // A is also both present and absent
    assert_eq!(rt; refused(1, &[without(A, 1, NONE)]), Some((10, Some(0))));
}

#[test]
fn wires_both_present_and_absent(rt: HostRuntime) {
    assert_eq!(rt; refused(1, &[without(A, 0, NONE)]), Some((12, Some(0))));
    assert_eq!(rt;
        refused(1, &[without(WireSet { bits: 3 }, 0, NONE)]),
        Some((12, Some(0)))
    );
    assert_eq!(rt; refused(1, &[without(B, 0, NONE)]), None);
    // rule by rule: the second one's 10 comes behind the first one's 12
    assert_eq!(rt;
        refused(1, &[without(A, 0, NONE), on_a(0, 1, NONE)]),
        Some((12, Some(0)))
    );
    assert_eq!(rt;
        refused(1, &[on_a(0, 1, NONE), without(A, 0, NONE)]),
        Some((10, Some(0)))
    );
}

#[test]
fn sixteen_rules(rt: HostRuntime) {
    let same = on_a(0, 0, B);
    assert_eq!(rt; refused(1, &[same; 16]), None);
    assert_eq!(rt; refused(1, &[same; 17]), Some((13, Some(16))));
    let mut rules = [same; 17];
    // the 17th is out of accord with the others too, but its number is asked for first
    rules[16] = on_a(0, 0, NONE);
    assert_eq!(rt; refused(1, &rules), Some((13, Some(16))));
    // 10 and 12 are asked of it before its number
    rules[16] = on_a(0, 1, B);
    assert_eq!(rt; refused(1, &rules), Some((10, Some(16))));
    rules[16] = without(A, 0, B);
    assert_eq!(rt; refused(1, &rules), Some((12, Some(16))));
}

#[test]
fn rules_that_can_fire_together(rt: HostRuntime) {
    // equal to and emits
    assert_eq!(rt; refused(2, &[on_a(0, 1, B), on_a(0, 1, B)]), None);
    // another to, another emits
    assert_eq!(rt;
        refused(2, &[on_a(0, 1, B), on_a(0, 0, B)]),
        Some((14, Some(1)))
    );
    assert_eq!(rt;
        refused(2, &[on_a(0, 1, B), on_a(0, 1, NONE)]),
        Some((14, Some(1)))
    );
    // of another state
    assert_eq!(rt; refused(2, &[on_a(0, 1, B), on_a(1, 0, NONE)]), None);
    // the third one against the first
    assert_eq!(rt;
        refused(3, &[on_a(0, 1, B), on_a(1, 2, B), on_a(0, 2, B)]),
        Some((14, Some(2)))
    );
}

#[test]
fn rules_that_a_wire_separates(rt: HostRuntime) {
    let on_b = Rule {
        from: 0,
        to: 1,
        present: B,
        absent: NONE,
        emits: NONE,
    };
    // A and B together fire both
    assert_eq!(rt; refused(2, &[on_a(0, 0, B), on_b]), Some((14, Some(1))));
    // one wants B, the other wants it away
    assert_eq!(rt; refused(2, &[without(B, 0, B), on_b]), None);
    assert_eq!(rt; refused(2, &[on_b, without(B, 0, B)]), None);
}
