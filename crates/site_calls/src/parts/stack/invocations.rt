//! Invocations, and what they wait for and have, as values. A call is written as an object: the
//! caller's port, and its number.

use call_rows::{count_at, list_value, text_value, triple_value, value_at, word_with};
use do_base::{CallId, Exc, NodeId, Oid, Value, Values, copy_value};
use do_behave::{Answer, InvState, Invocation, Waited};
use do_class::{ClassId, MethodId};
use std::alloc::Global;
use std::test::Fail;

/// What is asked for at a place: a root where a word stands there, and else the method of a number.
pub(crate) fn asked_at(args: &Values, at: usize) -> Result<Waited, Fail> {
    if value_at(args, at)?.text().is_some() {
        return Ok(Waited::Root);
    }
    let index = u32::from(count_at(args, at)?);
    Ok(Waited::Method(MethodId {
        class: ClassId(0),
        index,
    }))
}

/// A word for a root, or the number of a method.
pub(crate) fn asked_value(alloc: Global, what: Waited) -> Result<Value, Fail> {
    match what {
        Waited::Root => text_value(alloc, b"root"),
        Waited::Method(method) => Ok(Value::Num(i64::from(method.index))),
    }
}

/// The name of an exception that a stack raises, or of the one that rows answer with.
fn exception_name(alloc: Global, exception: &Exc) -> Result<Value, Fail> {
    match exception {
        Exc::Deep => text_value(alloc, b"Deep"),
        Exc::ConnectionDied => text_value(alloc, b"ConnectionDied"),
        Exc::TimedOut => text_value(alloc, b"TimedOut"),
        _ => text_value(alloc, b"another"),
    }
}

/// What was raised.
fn raised_value(alloc: Global, exception: &Exc) -> Result<Value, Fail> {
    let name = exception_name(alloc, exception)?;
    word_with(alloc, b"raised", name)
}

/// An answer: what was given, or what was raised.
pub(crate) fn answer_value(alloc: Global, answer: &Answer) -> Result<Value, Fail> {
    match answer {
        Answer::Given { result, outs: _ } => word_with(alloc, b"given", copy_value(result)?),
        Answer::Raised(exc) => raised_value(alloc, exc),
    }
}

/// A call, written as an object.
fn call_value(call: CallId) -> Value {
    Value::Obj(Oid {
        node: call.node,
        serial: call.number,
    })
}

/// The call, the peer and what is asked for behind a word.
fn waits_value(alloc: Global, call: CallId, peer: NodeId, what: Waited) -> Result<Value, Fail> {
    let what = asked_value(alloc, what)?;
    let word = text_value(alloc, b"waits")?;
    let peer = Value::Num(i64::from(peer.port()));
    Ok(list_value(vec![in alloc; word, call_value(call), peer, what]?))
}

/// What an invocation does.
fn state_value(alloc: Global, state: &InvState) -> Result<Value, Fail> {
    match state {
        InvState::Running => text_value(alloc, b"runs"),
        InvState::Below => text_value(alloc, b"below"),
        InvState::Waits { call, peer, what } => waits_value(alloc, *call, *peer, *what),
        InvState::Answered(answer) => answer_value(alloc, answer),
    }
}

/// An invocation: its first local, its place, and what it does.
fn invocation_value(alloc: Global, inv: &Invocation) -> Result<Value, Fail> {
    let first = inv.copy_local(0)?.ok_or("no local")?;
    let state = state_value(alloc, &inv.state)?;
    let place = Value::Num(i64::from(inv.pc));
    triple_value(alloc, first, place, state)
}

/// An invocation, or nil for none.
pub(crate) fn invocation_or_nil(alloc: Global, inv: Option<&Invocation>) -> Result<Value, Fail> {
    match inv {
        Some(inv) => invocation_value(alloc, inv),
        None => Ok(Value::Nil),
    }
}

/// A local of an invocation, or nil for none.
pub(crate) fn local_or_nil(inv: Option<&Invocation>, local: u8) -> Result<Value, Fail> {
    match inv {
        Some(inv) => Ok(inv.copy_local(local)?.ok_or("no local")?),
        None => Ok(Value::Nil),
    }
}
