//! The acts of `performService:pasteboard:error:`: it looks for the service, asks the pasteboard
//! for a type, asks for the root of the port, asks the provider, and answers.
ghost use Rattle.std.specs.Prelude.{◌≡◌, ◌∷◌, ◌++◌, [], pos, IfOk, OnOk, Some, None};
ghost use Rattle.std.specs.Option.{option_copied};
ghost use Rattle.do_base.specs.declared.values.value.Value.TheVariants.{Num, Text as TextValue};
ghost use Rattle.do_behave.specs.{Changes.Means, Steps.or_fault};
ghost use Rattle.do_native_acts.specs.{Places.at_place, Steps.set};
ghost use Rattle.do_services.specs.Acts.{has_type, keeps_on, perform_next, perform_places};
ghost use Rattle.do_services.specs.Acts.{performs, was_performed, was_raised};

use crate::asking::{asks_provider, asks_root, asks_type};
use crate::locals::{ANSWER, BOARD, CAUGHT, ERROR, ITEM, KIND, SERVICE};
use crate::service::Service;
use crate::services::Services;
use do_base::{Text, Value, Values};
use do_behave::{Change, Handler, Invocation, LocalSet, LocalSets, Writes};
use do_native_acts::{Row, answer, as_number, local_owner, local_text, step};
use std::alloc::AllocError;

/// Goes on at a place with these locals set, and the handler as it is.
fn keeps_on(inv: &Invocation, pc: u32, sets: LocalSets) -> Change
    ensures { Means inv.now result (keeps_on inv.now pc sets) }
{
    step(
        inv,
        pc,
        sets,
        inv.handler,
        Writes::new(inv.locals.allocator()),
    )
}

/// Values for locals.
fn sets_of(inv: &Invocation) -> LocalSets
    ensures { result ≡ [] }
{
    LocalSets::new(inv.locals.allocator())
}

/// Sets one local more.
fn put(sets: &mut LocalSets, local: u8, value: Value) -> Result<(), AllocError>
    ensures ok { OnOk result (sets.new ≡ sets.old ++ set local value ∷ []) }
{
    sets.push(LocalSet { local, value })?;
    Ok(())
}

/// A text as a value.
fn text_value(inv: &Invocation, bytes: &[u8]) -> Result<Value, AllocError>
    ensures { IfOk result (λ value. value ≡ TextValue bytes.now) }
{
    Ok(Value::Text(Text::from_slice(inv.locals.allocator(), bytes)?))
}

/// Ends with 0 and this error.
fn fails(inv: &Invocation, error: Value) -> Result<Change, AllocError>
    ensures { IfOk result (λ change. Means inv.now change
        (keeps_on inv.now 8 (set 2 error ∷ set 14 (Num (pos 0)) ∷ []))) }
{
    let mut sets = sets_of(inv);
    put(&mut sets, ERROR, error)?;
    put(&mut sets, ANSWER, Value::Num(0))?;
    Ok(keeps_on(inv, 8, sets))
}

/// The step where the item is unknown.
fn unknown_item(inv: &Invocation) -> Result<Change, AllocError>
    ensures { IfOk result (λ change. Means inv.now change (perform_next inv.now None)) }
{
    let mut sets = sets_of(inv);
    put(&mut sets, ERROR, text_value(inv, b"unknown item")?)?;
    put(&mut sets, SERVICE, Value::Nil)?;
    put(&mut sets, ANSWER, Value::Num(0))?;
    Ok(keeps_on(inv, 8, sets))
}

/// The step where the item has this service: an exception from now on is caught.
fn known_item(inv: &Invocation, service: &Service) -> Result<Change, AllocError>
    ensures { IfOk result (λ change.
        Means inv.now change (perform_next inv.now (Some service.now))) }
{
    let mut sets = sets_of(inv);
    put(&mut sets, SERVICE, service.shown()?)?;
    let caught = Handler {
        into: CAUGHT,
        pc: 7,
    };
    let writes = Writes::new(inv.locals.allocator());
    Ok(step(inv, 1, sets, Some(caught), writes))
}

/// The step after the item was looked for.
fn perform_next(inv: &Invocation, service: Option<&Service>) -> Result<Change, AllocError>
    ensures { IfOk result (λ change.
        Means inv.now change (perform_next inv.now (option_copied service.entry))) }
{
    match service {
        Some(service) => known_item(inv, service),
        None => unknown_item(inv),
    }
}

/// Looks for the service of the item, where the pasteboard is an object or nil.
fn performs(inv: &Invocation, slots: &Values) -> Result<Change, AllocError>
    ensures { IfOk result (λ change.
        Means inv.now change (or_fault (performs inv.now slots.now))) }
{
    let Some(services) = Services::from_slots(slots)? else {
        return Ok(Change::type_fault());
    };
    let Some(item) = local_text(inv, ITEM) else {
        return Ok(Change::type_fault());
    };
    match local_owner(inv, BOARD) {
        Some(_) => perform_next(inv, services.find(item)),
        None => Ok(Change::type_fault()),
    }
}

/// Ends where there is no such type, and else goes on.
fn has_type(inv: &Invocation) -> Result<Change, AllocError>
    ensures { IfOk result (λ change. Means inv.now change (or_fault (has_type inv.now))) }
{
    let Some(kind) = inv.local(KIND) else {
        return Ok(Change::type_fault());
    };
    if kind.is_nil() {
        let error = text_value(inv, b"no type")?;
        return fails(inv, error);
    }
    Ok(keeps_on(inv, 3, sets_of(inv)))
}

/// Ends with 1, or with 0 where the provider set an error.
fn was_performed(inv: &Invocation) -> Result<Change, AllocError>
    ensures { IfOk result (λ change. Means inv.now change (or_fault (was_performed inv.now))) }
{
    let Some(error) = inv.local(ERROR) else {
        return Ok(Change::type_fault());
    };
    let mut sets = sets_of(inv);
    put(&mut sets, ANSWER, as_number(error.is_nil()))?;
    Ok(keeps_on(inv, 8, sets))
}

/// Ends with 0, and what was raised as the error.
fn was_raised(inv: &Invocation) -> Result<Change, AllocError>
    ensures { IfOk result (λ change. Means inv.now change (or_fault (was_raised inv.now))) }
{
    match local_text(inv, CAUGHT) {
        Some(name) => fails(inv, Value::Text(name.clone()?)),
        None => Ok(Change::type_fault()),
    }
}

/// The act of `performService:pasteboard:error:` at its place.
pub(crate) fn perform_act(inv: &Invocation, slots: &Values) -> Result<Change, AllocError>
    ensures { IfOk result (λ change. Means inv.now change
        (or_fault (at_place inv.now (perform_places inv.now slots.now)))) }
{
    match inv.pc {
        0 => performs(inv, slots),
        1 => asks_type(inv),
        2 => has_type(inv),
        3 => asks_root(inv),
        4 => Ok(keeps_on(inv, 5, sets_of(inv))),
        5 => asks_provider(inv),
        6 => was_performed(inv),
        7 => was_raised(inv),
        8 => answer(inv),
        _ => Ok(Change::type_fault()),
    }
}
