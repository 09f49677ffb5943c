//! Acts and handlers as values. The form of the values is this project's own.

use crate::answers::{list_value, pair_value, text_value, word_with, word_with_two};
use do_base::{Exc, Locals, Text, Value, Values};
use do_behave::{Act, Handler};
use std::alloc::{AllocError, Global};
use std::test::Fail;

/// What is raised: the name of a fault, or the word of the user's exceptions with the text of one.
fn exception_value(alloc: Global, exception: Exc) -> Result<Value, Fail> {
    match exception {
        Exc::TypeFault => text_value(alloc, b"Type"),
        Exc::Range => text_value(alloc, b"Range"),
        Exc::User(text) => word_with(alloc, b"User", Value::Text(text)),
        _ => text_value(alloc, b"another exception"),
    }
}

/// An exception that a method raises.
fn raised_value(alloc: Global, exception: Exc) -> Result<Value, Fail> {
    let exception = exception_value(alloc, exception)?;
    word_with(alloc, b"raise", exception)
}

/// The numbers of locals as a list.
fn locals_value(alloc: Global, locals: &Locals) -> Result<Value, AllocError> {
    let mut values = Values::new(alloc);
    for local in locals.as_slice() {
        values.push(Value::Num(i64::from(*local)))?;
    }
    Ok(Value::List(values))
}

/// A message as a list: its target, selector and arguments, the local that takes what it gives,
/// those that take what comes out, and the place at which the method goes on.
fn send_value(
    alloc: Global,
    target: Value,
    selector: Text,
    args: Values,
    into: u8,
    from: Locals,
    pc: u32,
) -> Result<Value, Fail> {
    let word = text_value(alloc, b"send")?;
    let from = locals_value(alloc, &from)?;
    let (selector, args) = (Value::Text(selector), Value::List(args));
    let (into, pc) = (Value::Num(i64::from(into)), Value::Num(i64::from(pc)));
    Ok(list_value(vec![in alloc; word, target, selector, args, into, from, pc]?))
}

/// A word, what is made or asked, the local that takes what the act gives, and the place at which
/// the method goes on.
fn asked_value(alloc: Global, word: &[u8], what: Value, into: u8, pc: u32) -> Result<Value, Fail> {
    let word = text_value(alloc, word)?;
    let (into, pc) = (Value::Num(i64::from(into)), Value::Num(i64::from(pc)));
    Ok(list_value(vec![in alloc; word, what, into, pc]?))
}

/// An act that is no step, as a list.
fn left_value(alloc: Global, act: Act) -> Result<Value, Fail> {
    match act {
        Act::Return { value } => word_with(alloc, b"return", value),
        Act::Raise(exception) => raised_value(alloc, exception),
        Act::New { class, into, pc } => {
            asked_value(alloc, b"new", Value::Num(i64::from(class.0)), into, pc)
        }
        Act::Root { port, into, pc } => asked_value(alloc, b"root", port, into, pc),
        Act::Vend { value, pc } => {
            word_with_two(alloc, b"vend", value, Value::Num(i64::from(pc)))
        }
        Act::Say { value, pc } => word_with_two(alloc, b"say", value, Value::Num(i64::from(pc))),
        Act::Send {
            target,
            selector,
            args,
            into,
            from,
            pc,
        } => send_value(alloc, target, selector, args, into, from, pc),
        Act::Step { .. } => text_value(alloc, b"a step that is left"),
    }
}

/// What an act was, as a list; of a step the place at which the method goes on.
pub fn act_value(alloc: Global, act: Option<Act>, place: u32) -> Result<Value, Fail> {
    match act {
        None => word_with(alloc, b"step", Value::Num(i64::from(place))),
        Some(act) => left_value(alloc, act),
    }
}

/// The local and the place of a handler, or nil for none.
pub fn handler_value(alloc: Global, handler: Option<Handler>) -> Result<Value, Fail> {
    let Some(handler) = handler else {
        return Ok(Value::Nil);
    };
    let (into, pc) = (i64::from(handler.into), i64::from(handler.pc));
    pair_value(alloc, Value::Num(into), Value::Num(pc))
}
