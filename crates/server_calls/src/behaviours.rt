//! What decides the acts of one class, by its kind.

use do_base::Text;
use do_behave::{ClassCodes, Codes, Program};
use do_check::{Rule, Rules, Verdict};
use do_class::ClassTable;
use do_class_kinds::{Kind, Kinds, RuleTable};
use do_native::Native;
use do_script::{Names, assemble};
use std::alloc::{AllocError, Global};
use std::test::Fail;

/// A rule that lets the messages of a selector pass.
fn allowed(alloc: Global, selector: &[u8]) -> Result<Rule, AllocError> {
    let selector = Text::from_slice(alloc, selector)?;
    Ok(Rule {
        selector,
        verdict: Verdict::Forward,
    })
}

/// A rule that refuses the messages of a selector.
fn denied(alloc: Global, selector: &[u8]) -> Result<Rule, AllocError> {
    let text = Text::from_slice(alloc, b"not for you")?;
    let selector = Text::from_slice(alloc, selector)?;
    Ok(Rule {
        selector,
        verdict: Verdict::Deny(text),
    })
}

/// The rules of one class: `add:` is allowed and `reset:` is not, whatever a second rule says.
fn rule_table(alloc: Global) -> Result<RuleTable, AllocError> {
    let add = allowed(alloc, b"add:")?;
    let no_reset = denied(alloc, b"reset:")?;
    let reset = allowed(alloc, b"reset:")?;
    let rules = Rules::from_vec(vec![in alloc; add, no_reset, reset]?);
    Ok(RuleTable::from_vec(vec![in alloc; rules]?))
}

/// A program of one method, which returns its first argument.
fn program(alloc: Global) -> Result<Program, Fail> {
    let code = assemble(alloc, b"return l0", &Names::new(alloc), &Names::new(alloc))?;
    let of_class = ClassCodes::from_vec(vec![in alloc; code]?);
    let codes = Codes::from_vec(vec![in alloc; of_class]?);
    Ok(Program::new(&ClassTable::new(alloc), codes))
}

/// What decides the acts of one class of this kind.
pub(crate) fn behaviour_of(alloc: Global, kind: Kind) -> Result<Native, Fail> {
    let kinds = Kinds::from_vec(vec![in alloc; kind]?);
    let rules = rule_table(alloc)?;
    Ok(Native::new(kinds, program(alloc)?, rules))
}
