//! What stands in a class behind its name and its kind: slots, methods and rules.
ghost use Rattle.std.specs.Prelude.{◌≡◌, [], false, IfOk};
ghost use Rattle.toml.specs.View.{table_view};
ghost use Rattle.do_document.specs.{Checks.misfit, ClassFaults.{neither, parts_fault}};
ghost use Rattle.do_document.specs.{Finding.Finds, Sound.{AreGood, ArePartsOf, IsRuleless}};
ghost use Rattle.do_class_kinds.specs.Native.{native_methods};

use crate::document::value_at;
use crate::entries::{Listed, entries_at};
use crate::fault::WorldFault;
use crate::lists::MethodList;
use crate::place::Place;
use crate::slots::slots_at;
use do_check::Rules;
use do_class::{Methods, Slots};
use do_class_kinds::{Kind, native_methods, native_slots};
use std::alloc::{AllocError, Global};
use toml::Table;

/// The slots, the methods and the rules of a class.
#[derive(Drop)]
pub(crate) struct Parts {
    pub(crate) slots: Slots,
    pub(crate) methods: Methods,
    pub(crate) rules: Rules,
}

/// Refuses a table in which something stands at a key.
fn no_key(alloc: Global, table: &Table, place: Place, key: &str) -> Result<(), WorldFault>
    ensures { Finds (misfit place key.now (λ _. false) (table_view table.now))
        (λ _. Unit {0}) result }
{
    match value_at(table, key) {
        Some(_) => Err(place.wrong(alloc, key)),
        None => Ok(()),
    }
}

/// Refuses a table in which something stands at one of two keys.
fn neither_key(
    alloc: Global,
    table: &Table,
    place: Place,
    one: &str,
    other: &str,
) -> Result<(), WorldFault>
    ensures { Finds (neither place one.now other.now (table_view table.now))
        (λ _. Unit {0}) result }
{
    no_key(alloc, table, place, one)?;
    no_key(alloc, table, place, other)
}

/// No methods and no rules.
fn nothing(alloc: Global) -> Listed
    ensures { result ≡ record { methods = []; rules = [] } }
{
    Listed {
        methods: Methods::new(alloc),
        rules: Rules::new(alloc),
    }
}

/// The method that every checker has, without a rule.
fn guard(alloc: Global) -> Result<Listed, AllocError>
    ensures value { IfOk result (λ own.
        own ≡ record { methods = native_methods Kind.Checker; rules = [] }) }
    ensures good { IfOk result (λ own. AreGood own.methods own.rules) }
{
    let methods = native_methods(alloc, Kind::Checker)?;
    Ok(Listed {
        methods,
        rules: Rules::new(alloc),
    })
}

/// The parts of a class of scripts.
fn script_parts(alloc: Global, table: &Table, class: usize) -> Result<Parts, WorldFault>
    ensures { let t = table_view table.now in
        Finds (parts_fault class t Kind.Script)
        (λ p. ArePartsOf Kind.Script t p.slots p.methods p.rules) result }
{
    let place = Place::Class(class);
    let slots = slots_at(alloc, table, place)?;
    let none = nothing(alloc);
    let listed = entries_at(alloc, table, MethodList::Own, class, none)?;
    neither_key(alloc, table, place, "allow", "deny")?;
    let Listed { methods, rules } = listed;
    Ok(Parts {
        slots,
        methods,
        rules,
    })
}

/// The parts of a class of checkers.
fn checker_parts(alloc: Global, table: &Table, class: usize) -> Result<Parts, WorldFault>
    ensures { let t = table_view table.now in
        Finds (parts_fault class t Kind.Checker)
        (λ p. ArePartsOf Kind.Checker t p.slots p.methods p.rules) result }
{
    neither_key(alloc, table, Place::Class(class), "slots", "method")?;
    let slots = native_slots(alloc, Kind::Checker)?;
    let own = guard(alloc)?;
    let allowed = entries_at(alloc, table, MethodList::Allowed, class, own)?;
    let listed = entries_at(alloc, table, MethodList::Denied, class, allowed)?;
    let Listed { methods, rules } = listed;
    Ok(Parts {
        slots,
        methods,
        rules,
    })
}

/// The parts of a class of a native kind that has no rules.
fn native_parts(alloc: Global, table: &Table, class: usize, kind: Kind) -> Result<Parts, WorldFault>
    requires { IsRuleless kind }
    ensures { let t = table_view table.now in
        Finds (parts_fault class t kind)
        (λ p. ArePartsOf kind t p.slots p.methods p.rules) result }
{
    let at = Place::Class(class);
    neither_key(alloc, table, at, "slots", "method")?;
    neither_key(alloc, table, at, "allow", "deny")?;
    let slots = native_slots(alloc, kind)?;
    let methods = native_methods(alloc, kind)?;
    Ok(Parts {
        slots,
        methods,
        rules: Rules::new(alloc),
    })
}

/// The parts of a class of a kind.
pub(crate) fn parts_at(
    alloc: Global,
    table: &Table,
    class: usize,
    kind: Kind,
) -> Result<Parts, WorldFault>
    ensures { let t = table_view table.now in
        Finds (parts_fault class t kind)
        (λ p. ArePartsOf kind t p.slots p.methods p.rules) result }
{
    match kind {
        Kind::Script => script_parts(alloc, table, class),
        Kind::Checker => checker_parts(alloc, table, class),
        Kind::Names | Kind::Pasteboard | Kind::Services | Kind::Center => {
            native_parts(alloc, table, class, kind)
        }
    }
}
