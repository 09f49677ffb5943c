//! The acts of a centre: what a method does but delivering, and the behaviour as a whole.
//!
//! A method's deliveries are kept in a local, and an act of sending reads them there. One that
//! finds anything else, a list of more than 1,024 or a selector that has not three colons among
//! it, is a fault of type. Of a truth value only the number is looked at: 1 is yes, any other
//! no.
ghost use Rattle.std.specs.Prelude.{◌≡◌, IfOk, Some, map};
ghost use Rattle.do_base.specs.declared.values.value.Value.{List};
ghost use Rattle.do_grammar.specs.Words.{◌>>?◌};
ghost use Rattle.do_native_acts.specs.Steps.{fits, steps};
ghost use Rattle.do_behave.specs.{Changes.Means, Steps.or_fault};
ghost use Rattle.do_center.specs.{Acts.{call_in, first, keeps, kept, method_act}, Calls.does};
ghost use Rattle.do_center.specs.Notes.{delivery_value};

use crate::center::Center;
use crate::delivering::later;
use crate::methods::{Method, call_in, kept_in, method_of};
use crate::notes::{Deliveries, delivery_value};
use do_base::{Exc, Text, Value, Values};
use do_behave::{Act, Behaviour, Change, Invocation, LocalSet, LocalSets, Writes};
use do_class::ClassTable;
use do_native_acts::{CoreFault, changes, selector_in, step};
use std::alloc::AllocError;

/// The local of what a method answers.
const ANSWER: u8 = 14;

/// Deliveries as a value.
fn deliveries_value(sent: &Deliveries) -> Result<Value, AllocError>
    ensures { IfOk result (λ value. value ≡ List (map delivery_value sent.now)) }
{
    let mut values = Values::with_capacity(sent.allocator(), sent.len())?;
    for delivery in sent.as_slice() {
        values.push(delivery_value(delivery)?)?;
    }
    Ok(Value::List(values))
}

/// The step that keeps the deliveries behind the arguments, nil as the answer, and these slots.
fn keeps(
    method: Method,
    inv: &Invocation,
    sent: &Deliveries,
    writes: Writes,
) -> Result<Change, AllocError>
    ensures { IfOk result (λ change. Means inv.now change
        (steps inv.now 1 (kept method sent.now) inv.now.handler writes)) }
{
    let mut sets = LocalSets::with_capacity(inv.locals.allocator(), 2)?;
    let local = kept_in(method);
    let value = deliveries_value(sent)?;
    sets.push(LocalSet { local, value })?;
    sets.push(LocalSet {
        local: ANSWER,
        value: Value::Nil,
    })?;
    Ok(step(inv, 1, sets, inv.handler, writes))
}

/// Does the call of a method, and keeps its deliveries.
#[tactic(auto, using(crate::specs::laws::CallsRead::call_good))]
fn first_on(
    center: &mut Center,
    method: Method,
    inv: &Invocation,
    slots: &Values,
) -> Result<Change, AllocError>
    ensures { IfOk result (λ change. Means inv.now change (or_fault (call_in method inv.now
        >>? λ call. Some (fits (does center.old call) (keeps method inv.now slots.now))))) }
{
    let Some(call) = call_in(method, inv)? else {
        return Ok(Change::type_fault());
    };
    match center.perform(call) {
        Ok(sent) => keeps(method, inv, &sent, changes(slots, &center.to_slots()?)?),
        Err(CoreFault::Full(_)) => Ok(Change::Other(Act::Raise(Exc::Range))),
        Err(CoreFault::Memory) => Err(AllocError),
    }
}

/// The first act of a method: all that it does but delivering.
fn first(method: Method, inv: &Invocation, slots: &Values) -> Result<Change, AllocError>
    ensures { IfOk result (λ change.
        Means inv.now change (or_fault (first method inv.now slots.now))) }
{
    match Center::from_slots(slots)? {
        Some(mut center) => first_on(&mut center, method, inv, slots),
        None => Ok(Change::type_fault()),
    }
}

/// The act of the method with this selector.
fn method_act(selector: &Text, inv: &Invocation, slots: &Values) -> Result<Change, AllocError>
    ensures { IfOk result (λ change.
        Means inv.now change (or_fault (method_act selector.now inv.now slots.now))) }
{
    let Some(method) = method_of(selector) else {
        return Ok(Change::type_fault());
    };
    if inv.pc == 0 {
        first(method, inv, slots)
    } else {
        later(method, inv)
    }
}

/// The behaviour of notification centres. The slots of one hold its registrations, the observers
/// that are suspended, and the queues of observers; each is nil where it would be empty.
///
/// The methods are those of Apple's and GNUstep's documentation of
/// `NSDistributedNotificationCenter`, with the observer told by `setSuspended:for:`. All deliveries
/// of a call are fixed in its first act, and then sent in order. An exception of one of them is
/// caught, and the next one goes on.
#[derive(Clone, Copy, Debug)]
pub struct NotificationCenter;

impl Behaviour for NotificationCenter {
    ghost use Rattle.do_center.specs.Acts.{center_act};
    ghost use Rattle.do_center.specs.laws.CenterLaws.{center_names_shown, center_answers_well};

    ghost act = { λ _. center_act };

    ghost made_for = { λ _ _. Unit {0} };

    ghost names_shown = { λ _. center_names_shown };

    ghost answers_well = { λ _ table inv slots _. center_answers_well table inv slots };

    fn act(
        &self,
        table: &ClassTable,
        inv: &Invocation,
        slots: &Values,
    ) -> Result<Change, AllocError> {
        match selector_in(table, inv) {
            Some(selector) => method_act(selector, inv, slots),
            None => Ok(Change::type_fault()),
        }
    }
}
