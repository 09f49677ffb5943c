ghost use Rattle.std.specs.{Prelude.{◌≡◌, IfOk}, Option.option_copied, List.find, Str.bytes_eq};
ghost use Rattle.do_check.specs.Rules.{verdict_of};

use crate::rules::{Rule, Rules, Verdict};
use do_base::Text;
use std::alloc::AllocError;

/// The first rule of a selector.
fn rule_of<'a>(rules: &'a Rules, selector: &Text) -> Option<&'a Rule>
    ensures { option_copied result ≡ find (λ r. bytes_eq selector.now r.selector) rules.now }
{
    for rule in rules.as_slice() {
        if *selector == rule.selector {
            return Some(rule);
        }
    }
    None
}

/// What is done with the messages of a selector; none exactly where no rule is for it.
///
/// An error means that memory ran out.
pub fn verdict(rules: &Rules, selector: &Text) -> Result<Option<Verdict>, AllocError>
    ensures { IfOk result (λ found. found ≡ verdict_of rules.now selector.now) }
{
    match rule_of(rules, selector) {
        None => Ok(None),
        Some(rule) => match &rule.verdict {
            Verdict::Forward => Ok(Some(Verdict::Forward)),
            Verdict::Deny(text) => Ok(Some(Verdict::Deny(text.clone()?))),
        },
    }
}
