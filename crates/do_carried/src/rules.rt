//! The texts of rules.
ghost use Rattle.std.specs.List.{AllByRecursion};
ghost use Rattle.do_carried.specs.Ranged.{RuleIsRanged, RulesAreRanged};

use crate::ranges::bytes_fit;
use do_check::{Rule, Rules, Verdict};
use do_class_kinds::RuleTable;

/// The text of a denial is of bytes.
fn rule_is_ranged(rule: &Rule)
    ensures { RuleIsRanged rule.now }
{
    match &rule.verdict {
        Verdict::Forward => {}
        Verdict::Deny(text) => bytes_fit(text.as_slice()),
    }
}

/// So are those of a class.
fn class_is_ranged(rules: &Rules)
    ensures { AllByRecursion RuleIsRanged rules.now }
{
    for rule in rules.as_slice() {
        rule_is_ranged(rule);
    }
}

/// The texts of all denials are of bytes.
pub fn rules_are_ranged(rules: &RuleTable)
    ensures { RulesAreRanged rules.now }
{
    for of_class in rules.as_slice() {
        class_is_ranged(of_class);
    }
}
