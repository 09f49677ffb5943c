//! The acts that deliver: before each message a step, and behind all of them the return.
ghost use Rattle.std.specs.Prelude.{◌≡◌, ◌∷◌, [], ◌-◌, ◌<◌, ◌≤◌, IfOk, IfSome, length};
ghost use Rattle.std.specs.Option.{option_copied};
ghost use Rattle.do_behave.specs.{Changes.Means, Steps.or_fault};
ghost use Rattle.do_center.specs.Acts.{delivers, delivery_at, found, later, readies};

use crate::center::MAX_DELIVERIES;
use crate::methods::{Method, kept_in};
use crate::registrations::selector_in;
use do_base::{Locals, Value, Values, copy_value};
use do_behave::{Act, Change, Handler, Invocation, LocalSets, Writes};
use do_native_acts::{answer, step};
use std::alloc::AllocError;

/// The local that takes what a delivered message gives.
const ASIDE: u8 = 13;

/// The local that takes the name of an exception.
const CAUGHT: u8 = 15;

/// The step before a delivery: an exception leads behind it.
fn readies(inv: &Invocation, parts: &[Value]) -> Change
    requires few { inv.now.pc ≤ 2048 }
    ensures { Means inv.now result (or_fault (readies inv.now parts.now)) }
{
    let [_, _, _, _, _] = parts else {
        return Change::type_fault();
    };
    let alloc = inv.locals.allocator();
    let handler = Some(Handler {
        into: CAUGHT,
        pc: inv.pc + 2,
    });
    step(
        inv,
        inv.pc + 1,
        LocalSets::new(alloc),
        handler,
        Writes::new(alloc),
    )
}

/// The arguments of a message: the name, the object and the information.
fn arguments(
    inv: &Invocation,
    name: &Value,
    object: &Value,
    info: &Value,
) -> Result<Values, AllocError>
    ensures { IfOk result (λ args. args ≡ name.now ∷ object.now ∷ info.now ∷ []) }
{
    let mut args = Values::with_capacity(inv.locals.allocator(), 3)?;
    args.push(copy_value(name)?)?;
    args.push(copy_value(object)?)?;
    args.push(copy_value(info)?)?;
    Ok(args)
}

/// The message of a delivery.
fn delivers(inv: &Invocation, parts: &[Value]) -> Result<Change, AllocError>
    requires few { inv.now.pc ≤ 2048 }
    ensures { IfOk result (λ change. Means inv.now change (or_fault (delivers inv.now parts.now))) }
{
    let [observer, selector, name, object, info] = parts else {
        return Ok(Change::type_fault());
    };
    let Some(selector) = selector_in(selector) else {
        return Ok(Change::type_fault());
    };
    let args = arguments(inv, name, object, info)?;
    let from = Locals::from_slice(inv.locals.allocator(), &[ASIDE, ASIDE, ASIDE])?;
    let target = copy_value(observer)?;
    let selector = selector.clone()?;
    Ok(Change::Other(Act::Send {
        target,
        selector,
        args,
        into: ASIDE,
        from,
        pc: inv.pc + 1,
    }))
}

/// The deliveries that the first step kept.
fn found(method: Method, inv: &Invocation) -> Option<&Values>
    ensures value { option_copied result ≡ found method inv.now }
    ensures few { IfSome result (λ sent. length sent.now ≤ 1024) }
{
    inv.local(kept_in(method))?
        .items()
        .filter(|sent| sent.len() <= MAX_DELIVERIES)
}

/// The parts of the delivery at a place.
fn delivery_at(sent: &Values, at: usize) -> Option<&Values>
    ensures value { option_copied result ≡ delivery_at sent.now at }
    ensures within { IfSome result (λ parts. at < length sent.now) }
{
    sent.get(at)?.items()
}

/// The act at a place behind the first: two for each delivery, and behind them the return.
pub(crate) fn later(method: Method, inv: &Invocation) -> Result<Change, AllocError>
    requires behind { 0 < inv.now.pc }
    ensures { IfOk result (λ change.
        Means inv.now change (or_fault (later method inv.now (inv.now.pc - 1)))) }
{
    let Some(sent) = found(method, inv) else {
        return Ok(Change::type_fault());
    };
    let behind = inv.pc as usize - 1;
    if behind == 2 * sent.len() {
        return answer(inv);
    }
    let Some(parts) = delivery_at(sent, behind / 2) else {
        return Ok(Change::type_fault());
    };
    if behind % 2 == 0 {
        Ok(readies(inv, parts.as_slice()))
    } else {
        delivers(inv, parts.as_slice())
    }
}
