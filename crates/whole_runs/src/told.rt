//! What a command came to, as an answer.

use call_rows::text_value;
use do_base::{Value, Values};
use do_lab::ChildEnd;
use do_node::Status;
use std::alloc::Global;
use std::fmt;
use std::test::Fail;

/// What is printed of something, as a value.
fn printed_of<D: fmt::Display>(alloc: Global, shown: &D) -> Result<Value, Fail> {
    let text = format!(in alloc; "{shown}")?;
    text_value(alloc, text.as_bytes())
}

/// How a child ended: its status, or what could not be done.
fn ended(alloc: Global, end: &ChildEnd) -> Result<Value, Fail> {
    match end {
        ChildEnd::Status(status) => Ok(Value::Num(i64::from(*status))),
        ChildEnd::NotStarted => text_value(alloc, b"not started"),
        ChildEnd::NotWaited => text_value(alloc, b"not waited for"),
    }
}

/// What a status has beside what it prints: the fault of a world, how much of a file was read, and
/// how a child ended.
fn more(alloc: Global, status: &Status) -> Result<Value, Fail> {
    match status {
        Status::BadWorld(fault) => printed_of(alloc, fault),
        Status::TooLong { read, .. } => Ok(Value::Num(i64::try_from(*read)?)),
        Status::ChildFailed { end, .. } => ended(alloc, end),
        _ => Ok(Value::Nil),
    }
}

/// The number of a status, what it prints, and the rest of it.
pub(crate) fn told(alloc: Global, status: &Status) -> Result<Values, Fail> {
    let number = Value::Num(i64::from(status.number()));
    let printed = printed_of(alloc, status)?;
    let more = more(alloc, status)?;
    Ok(Values::from_vec(vec![in alloc; number, printed, more]?))
}

/// A status, and behind it a value.
pub(crate) fn told_with(alloc: Global, status: &Status, last: Value) -> Result<Value, Fail> {
    let mut values = told(alloc, status)?;
    values.push(last)?;
    Ok(Value::List(values))
}
