//! Answers as values.

use do_base::{Oid, Text, Value, Values};
use do_native_acts::CoreFault;
use std::alloc::{AllocError, Global};
use std::fmt;
use std::test::Fail;

/// A text as a value.
pub fn text_value(alloc: Global, bytes: &[u8]) -> Result<Value, Fail> {
    Ok(Value::Text(Text::from_slice(alloc, bytes)?))
}

/// What is printed of something, as a failure, as a value.
pub fn printed<F: fmt::Display + Drop>(alloc: Global, shown: F) -> Result<Value, Fail> {
    let text = format!(in alloc; "{shown}")?;
    text_value(alloc, text.as_bytes())
}

/// What is printed of something for those who look into programs, as a value.
pub fn shown<D: fmt::Debug>(alloc: Global, what: &D) -> Result<Value, Fail> {
    let printed = format!(in alloc; "{what:?}")?;
    text_value(alloc, printed.as_bytes())
}

/// Values as a list.
pub fn list_value(values: Vec<Value>) -> Value {
    Value::List(Values::from_vec(values))
}

/// Two values as a list.
pub fn pair_value(alloc: Global, first: Value, second: Value) -> Result<Value, Fail> {
    Ok(list_value(vec![in alloc; first, second]?))
}

/// Three values as a list.
pub fn triple_value(
    alloc: Global,
    first: Value,
    second: Value,
    third: Value,
) -> Result<Value, Fail> {
    Ok(list_value(vec![in alloc; first, second, third]?))
}

/// A list of a word alone.
pub fn word_alone(alloc: Global, word: &[u8]) -> Result<Value, Fail> {
    let word = text_value(alloc, word)?;
    Ok(list_value(vec![in alloc; word]?))
}

/// A word with one value.
pub fn word_with(alloc: Global, word: &[u8], value: Value) -> Result<Value, Fail> {
    let word = text_value(alloc, word)?;
    pair_value(alloc, word, value)
}

/// A word with two values.
pub fn word_with_two(
    alloc: Global,
    word: &[u8],
    first: Value,
    second: Value,
) -> Result<Value, Fail> {
    let word = text_value(alloc, word)?;
    triple_value(alloc, word, first, second)
}

/// What a core refuses: `full` with the limit that it keeps.
pub fn refused(alloc: Global, fault: CoreFault) -> Result<Value, Fail> {
    match fault {
        CoreFault::Full(limit) => {
            let limit = i64::try_from(limit)?;
            word_with(alloc, b"full", Value::Num(limit))
        }
        CoreFault::Memory => Err(Fail::from(AllocError)),
    }
}

/// The failure of a word that names no call.
pub fn no_call() -> Result<Value, Fail> {
    Err(Fail::from("no such call"))
}

/// An object, or nil for none.
pub fn object_or_nil(object: Option<Oid>) -> Value {
    match object {
        Some(object) => Value::Obj(object),
        None => Value::Nil,
    }
}

/// A number, or nil for none.
pub fn number_or_nil(number: Option<i64>) -> Value {
    match number {
        Some(number) => Value::Num(number),
        None => Value::Nil,
    }
}

/// A count as a number.
pub fn count_value(count: usize) -> Result<Value, Fail> {
    Ok(Value::Num(i64::try_from(count)?))
}
