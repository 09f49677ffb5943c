//! Answers as values.

use call_rows::{count_value, pair_value};
use do_base::{Oid, Token, Value};
use do_class::ClassId;
use do_native_acts::as_number;
use std::alloc::Global;
use std::test::Fail;

/// A number from 0 on.
pub(crate) fn amount_value(amount: u64) -> Result<Value, Fail> {
    count_value(amount as usize)
}

/// A number from 0 on, or nil for none.
pub(crate) fn amount_or_nil(amount: Option<u64>) -> Result<Value, Fail> {
    match amount {
        Some(amount) => amount_value(amount),
        None => Ok(Value::Nil),
    }
}

/// Whether something was done, 1 or 0, or nil where there was no room for it.
pub(crate) fn done_or_nil(done: Option<bool>) -> Value {
    match done {
        Some(done) => as_number(done),
        None => Value::Nil,
    }
}

/// A class, by its number.
pub(crate) fn class_value(class: ClassId) -> Value {
    Value::Num(i64::from(class.0))
}

/// A class, by its number, or nil for none.
pub(crate) fn class_or_nil(class: Option<ClassId>) -> Value {
    match class {
        Some(class) => class_value(class),
        None => Value::Nil,
    }
}

/// A token, written as an object.
pub(crate) fn token_value(token: Token) -> Value {
    Value::Obj(Oid {
        node: token.lender,
        serial: token.number,
    })
}

/// The object and the token of an ask, or nil for none.
pub(crate) fn ask_value(alloc: Global, ask: Option<(Oid, Token)>) -> Result<Value, Fail> {
    match ask {
        Some((oid, token)) => pair_value(alloc, Value::Obj(oid), token_value(token)),
        None => Ok(Value::Nil),
    }
}

/// An object that left and how often it was received, or nil for none.
pub(crate) fn left_value(alloc: Global, left: Option<(Oid, u64)>) -> Result<Value, Fail> {
    match left {
        Some((oid, count)) => {
            let count = amount_value(count)?;
            pair_value(alloc, Value::Obj(oid), count)
        }
        None => Ok(Value::Nil),
    }
}
