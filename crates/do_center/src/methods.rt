//! The methods of a centre, and the calls that their arguments make.
ghost use Rattle.std.specs.Prelude.{◌≡◌, IfOk};
ghost use Rattle.do_base.specs.values.Kinds.{object};
ghost use Rattle.do_grammar.specs.Words.{◌>>?◌};
ghost use Rattle.do_behave.specs.Steps.{local};
ghost use Rattle.do_center.specs.Acts.{adds, call_in, kept_in, method_of, posts, removes, suspends};
ghost use Rattle.do_center.specs.{Acts.truth_in, Notes.label_in};

use crate::calls::Call;
use crate::labels::label_in;
use crate::notes::note_in;
use crate::registrations::registration_from;
use do_base::{Oid, Text};
use do_behave::Invocation;
use std::alloc::AllocError;

/// A method of a centre.
#[derive(Clone, Copy, Debug)]
pub(crate) enum Method {
    /// `addObserver:selector:name:object:suspensionBehavior:`.
    Add,
    /// `removeObserver:name:object:`.
    Remove,
    /// `setSuspended:for:`.
    Suspend,
    /// `postNotificationName:object:userInfo:deliverImmediately:`.
    Post,
}

/// The method of a selector.
pub(crate) fn method_of(selector: &Text) -> Option<Method>
    ensures { result ≡ method_of selector.now }
{
    if selector.is(b"addObserver:selector:name:object:suspensionBehavior:") {
        return Some(Method::Add);
    }
    if selector.is(b"removeObserver:name:object:") {
        return Some(Method::Remove);
    }
    if selector.is(b"setSuspended:for:") {
        return Some(Method::Suspend);
    }
    if selector.is(b"postNotificationName:object:userInfo:deliverImmediately:") {
        return Some(Method::Post);
    }
    None
}

/// The local behind the arguments, which keeps the deliveries.
pub(crate) fn kept_in(method: Method) -> u8
    ensures { result ≡ kept_in method }
{
    match method {
        Method::Add => 5,
        Method::Remove => 3,
        Method::Suspend => 2,
        Method::Post => 4,
    }
}

/// The object that a local names.
fn local_object(inv: &Invocation, k: u8) -> Option<Oid>
    ensures { result ≡ (local inv.now k >>? object) }
{
    inv.local(k)?.object()
}

/// Whether a local holds 1; none where it holds no number.
fn local_truth(inv: &Invocation, k: u8) -> Option<bool>
    ensures { result ≡ (local inv.now k >>? truth_in) }
{
    Some(inv.local(k)?.number()? == 1)
}

/// The label that a local holds.
fn local_label(inv: &Invocation, k: u8) -> Result<Option<Option<Text>>, AllocError>
    ensures { IfOk result (λ label. label ≡ (local inv.now k >>? label_in)) }
{
    match inv.local(k) {
        Some(value) => label_in(value),
        None => Ok(None),
    }
}

/// The call that adds a registration.
fn adds(inv: &Invocation) -> Result<Option<Call>, AllocError>
    ensures { IfOk result (λ call. call ≡ adds inv.now) }
{
    let Some(observer) = inv.local(0) else {
        return Ok(None);
    };
    let Some(selector) = inv.local(1) else {
        return Ok(None);
    };
    let Some(name) = inv.local(2) else {
        return Ok(None);
    };
    let Some(object) = inv.local(3) else {
        return Ok(None);
    };
    let Some(behaviour) = inv.local(4) else {
        return Ok(None);
    };
    match registration_from(observer, selector, name, object, behaviour)? {
        Some(registration) => Ok(Some(Call::Add(registration))),
        None => Ok(None),
    }
}

/// The call that takes out registrations.
fn removes(inv: &Invocation) -> Result<Option<Call>, AllocError>
    ensures { IfOk result (λ call. call ≡ removes inv.now) }
{
    let Some(observer) = local_object(inv, 0) else {
        return Ok(None);
    };
    let Some(name) = local_label(inv, 1)? else {
        return Ok(None);
    };
    match local_label(inv, 2)? {
        Some(object) => Ok(Some(Call::Remove {
            observer,
            name,
            object,
        })),
        None => Ok(None),
    }
}

/// The call that suspends an observer, or resumes it.
fn suspends(inv: &Invocation) -> Option<Call>
    ensures { result ≡ suspends inv.now }
{
    let on = local_truth(inv, 0)?;
    let observer = local_object(inv, 1)?;
    Some(Call::Suspend { observer, on })
}

/// The call that posts a notification.
fn posts(inv: &Invocation) -> Result<Option<Call>, AllocError>
    ensures { IfOk result (λ call. call ≡ posts inv.now) }
{
    let Some(name) = inv.local(0) else {
        return Ok(None);
    };
    let Some(object) = inv.local(1) else {
        return Ok(None);
    };
    let Some(info) = inv.local(2) else {
        return Ok(None);
    };
    let Some(immediate) = local_truth(inv, 3) else {
        return Ok(None);
    };
    match note_in(name, object, info)? {
        Some(note) => Ok(Some(Call::Post { note, immediate })),
        None => Ok(None),
    }
}

/// The call that a method and the arguments make; none where they make none.
pub(crate) fn call_in(method: Method, inv: &Invocation) -> Result<Option<Call>, AllocError>
    ensures { IfOk result (λ call. call ≡ call_in method inv.now) }
{
    match method {
        Method::Add => adds(inv),
        Method::Remove => removes(inv),
        Method::Suspend => Ok(suspends(inv)),
        Method::Post => posts(inv),
    }
}
