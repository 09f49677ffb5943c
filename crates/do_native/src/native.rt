ghost use Rattle.std.specs.Prelude.{◌≡◌, IfOk};
ghost use Rattle.do_behave.specs.{Changes.Means, Steps.or_fault};
ghost use Rattle.do_native.specs.Acts.{acts_as, checker_act};

use do_base::Values;
use do_behave::{Behaviour, Change, Invocation, Program};
use do_center::NotificationCenter;
use do_check::check_act;
use do_class::ClassTable;
use do_class_kinds::{Kind, Kinds, RuleTable};
use do_names::NameServer;
use do_pboard::PasteboardServer;
use do_services::ServiceServer;
use std::alloc::AllocError;

/// A behaviour of classes of all kinds.
///
/// An invocation acts by the kind of its method's class: a script by its code in the program, a
/// server as its own behaviour does, a checker by the rules of its class. Where the class has no
/// kind, or a checker no rules, it raises Type.
#[derive(Debug, Drop)]
pub struct Native {
    /// The kind of each class.
    pub kinds: Kinds,
    /// The codes of scripts.
    pub program: Program,
    /// The rules of checkers, a list for each class.
    pub rules: RuleTable,
}

impl Native {
    /// The behaviour of classes of these kinds.
    pub fn new(kinds: Kinds, program: Program, rules: RuleTable) -> Native
        ensures { result ≡ record { kinds = kinds; program = program; rules = rules } }
    {
        Native {
            kinds,
            program,
            rules,
        }
    }

    /// The act of a checker, by the rules of its class.
    fn checker_act(
        &self,
        table: &ClassTable,
        inv: &Invocation,
        slots: &Values,
    ) -> Result<Change, AllocError>
        ensures { IfOk result (λ change. Means inv.now change
            (or_fault (checker_act self.now table.now inv.now slots.now))) }
    {
        match self.rules.get(inv.method.class.0 as usize) {
            Some(rules) => check_act(rules, table, inv, slots),
            None => Ok(Change::type_fault()),
        }
    }

    /// The act of an object of a kind.
    fn acts_as(
        &self,
        kind: Kind,
        table: &ClassTable,
        inv: &Invocation,
        slots: &Values,
    ) -> Result<Change, AllocError>
        ensures { IfOk result (λ change. Means inv.now change
            (or_fault (acts_as self.now kind table.now inv.now slots.now))) }
    {
        match kind {
            Kind::Script => self.program.act(table, inv, slots),
            Kind::Names => NameServer.act(table, inv, slots),
            Kind::Pasteboard => PasteboardServer.act(table, inv, slots),
            Kind::Services => ServiceServer.act(table, inv, slots),
            Kind::Center => NotificationCenter.act(table, inv, slots),
            Kind::Checker => self.checker_act(table, inv, slots),
        }
    }
}

impl Behaviour for Native {
    ghost use Rattle.do_native.specs.Acts.{IsMadeFor, native_act};
    ghost use Rattle.do_native.specs.laws.NativeLaws.{native_answers_well, native_names_shown};

    ghost act = { native_act };

    ghost made_for = { IsMadeFor };

    ghost names_shown = { native_names_shown };

    ghost answers_well = { native_answers_well };

    fn act(
        &self,
        table: &ClassTable,
        inv: &Invocation,
        slots: &Values,
    ) -> Result<Change, AllocError> {
        match self.kinds.get(inv.method.class.0 as usize) {
            Some(kind) => self.acts_as(*kind, table, inv, slots),
            None => Ok(Change::type_fault()),
        }
    }
}
