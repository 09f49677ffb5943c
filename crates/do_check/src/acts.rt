ghost use Rattle.std.specs.Prelude.{◌≡◌, IfOk, IsTrue};
ghost use Rattle.do_grammar.specs.Names.{is_selector};
ghost use Rattle.do_behave.specs.{Changes.Means, Steps.or_fault};
ghost use Rattle.do_check.specs.Acts.{check_act, checks};

use crate::forward::forward;
use crate::guard::guard;
use crate::lookup::verdict;
use crate::rules::{Rules, Verdict};
use do_base::{Exc, Text, Values};
use do_behave::{Act, Behaviour, Change, Invocation};
use do_class::ClassTable;
use do_native_acts::selector_in;
use std::alloc::AllocError;
use std::marker::Model;

/// The act of the method with this selector.
fn check(
    rules: &Rules,
    inv: &Invocation,
    slots: &Values,
    selector: &Text,
) -> Result<Change, AllocError>
    requires { IsTrue (is_selector selector.now) }
    ensures { IfOk result (λ change.
        Means inv.now change (or_fault (checks rules.now inv.now slots.now selector.now))) }
{
    if selector.is(b"guard:") {
        return guard(inv, slots);
    }
    match verdict(rules, selector)? {
        None => Ok(Change::type_fault()),
        Some(Verdict::Forward) => forward(inv, slots, selector),
        Some(Verdict::Deny(text)) => Ok(Change::Other(Act::Raise(Exc::User(text)))),
    }
}

/// The act of an invocation of a checker with these rules, whose object has these slots.
///
/// An error means that memory ran out.
pub fn check_act(
    rules: &Rules,
    table: &ClassTable,
    inv: &Invocation,
    slots: &Values,
) -> Result<Change, AllocError>
    ensures { IfOk result (λ change.
        Means inv.now change (check_act rules.now table.now inv.now slots.now)) }
{
    match selector_in(table, inv) {
        Some(selector) => check(rules, inv, slots, selector),
        None => Ok(Change::type_fault()),
    }
}

/// The behaviour of checkers with these rules. The one slot of a checker holds its target, or nil.
///
/// Contracts see the list of its rules.
#[derive(Debug, Drop)]
pub struct Checker {
    rules: Rules,
}

impl Model for Checker {
    ghost use Rattle.do_check.specs.contracts.rules.Rule as rule;
    ghost use Rattle.std.specs.{Prelude.List, Coded.codes};
    ghost use Rattle.do_check.specs.declared.rules.Rule.{Rule};

    ghost Value = { List Rule };

    ghost coded = { Prim.hlevel (codes, rule.the_row.coded) };

    ghost view = { λ c. c.rules };
}

impl Checker {
    /// A checker with these rules.
    pub fn new(rules: Rules) -> Checker
        ensures { result ≡ rules }
    {
        Checker { rules }
    }

    /// The rules.
    pub fn rules(&self) -> &Rules
        ensures { result.now ≡ self.now }
    {
        &self.rules
    }
}

impl Behaviour for Checker {
    ghost use Rattle.do_check.specs.{Acts.check_act, Rules.AreRules};
    ghost use Rattle.do_check.specs.laws.CheckLaws.{check_names_shown, check_answers_well};

    ghost act = { check_act };

    ghost made_for = { λ rules _. AreRules rules };

    ghost names_shown = { check_names_shown };

    ghost answers_well = { check_answers_well };

    fn act(
        &self,
        table: &ClassTable,
        inv: &Invocation,
        slots: &Values,
    ) -> Result<Change, AllocError> {
        check_act(&self.rules, table, inv, slots)
    }
}
