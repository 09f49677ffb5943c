//! Values as rows write them.
//!
//! They are written as in schedules, `nil`, a number, a text in quotes, `#PORT.SERIAL` and a list
//! in brackets, and three long ones by a count: `~N` is a text of N letters, `*N` a list of N nils,
//! and `%N` a list of the texts `0`, `1` and so on, N of them.

use do_base::{LONGEST_TEXT, NodeId, Oid, Text, Value, Values};
use do_grammar::{dec_of, int_of, is_text, push_dec, quoted_of, word_of};
use std::alloc::{AllocError, Global};
use std::test::Fail;

/// The bytes before the first space or closing bracket, and those from it on.
fn word_in(bytes: &[u8]) -> (&[u8], &[u8]) {
    for n in 0..bytes.len() {
        if bytes[n] == b' ' || bytes[n] == b']' {
            return (&bytes[..n], &bytes[n..]);
        }
    }
    (bytes, &[])
}

/// The decimal digits of a number as a text.
pub fn digits(alloc: Global, number: u64) -> Result<Text, AllocError> {
    let mut text = Text::new(alloc);
    push_dec(&mut text, number)?;
    Ok(text)
}

/// A text of as many letters.
fn letters(alloc: Global, count: u64) -> Result<Value, AllocError> {
    let letters = vec![in alloc; b'a'; count as usize]?;
    Ok(Value::Text(Text::from_vec(alloc, letters)?))
}

/// A list of as many nils.
fn nils(alloc: Global, count: u64) -> Result<Value, AllocError> {
    let mut values = Values::new(alloc);
    for _nil in 0..count {
        values.push(Value::Nil)?;
    }
    Ok(Value::List(values))
}

/// A list of as many texts, none of them twice.
fn numbered(alloc: Global, count: u64) -> Result<Value, AllocError> {
    let mut values = Values::new(alloc);
    for number in 0..count {
        values.push(Value::Text(digits(alloc, number)?))?;
    }
    Ok(Value::List(values))
}

/// A count as values have it.
fn count_of(digits: &[u8]) -> Result<u64, Fail> {
    Ok(dec_of(digits, 0, 2_097_152).ok_or("no count")?)
}

/// The object of a port and a serial number.
fn object_of(name: &[u8]) -> Option<Oid> {
    let (port, serial) = word_of(name, b'.')?;
    let node = NodeId::new(dec_of(port, 1, 65_535)? as u16)?;
    let serial = dec_of(serial, 0, u64::MAX)?;
    Some(Oid { node, serial })
}

/// Nil or a number.
fn plain_of(word: &[u8]) -> Result<Value, Fail> {
    if is_text(word, b"nil") {
        return Ok(Value::Nil);
    }
    match int_of(word) {
        Some(number) => Ok(Value::Num(number)),
        None => Err(Fail::from("no value")),
    }
}

/// The long value of a sign and a count.
fn long_value(alloc: Global, sign: u8, count: u64) -> Result<Value, AllocError> {
    match sign {
        b'~' => letters(alloc, count),
        b'*' => nils(alloc, count),
        _ => numbered(alloc, count),
    }
}

/// The value that a word is.
fn word_value(alloc: Global, word: &[u8]) -> Result<Value, Fail> {
    match word {
        [b'#', name @ ..] => Ok(Value::Obj(object_of(name).ok_or("no object")?)),
        [sign @ (b'~' | b'*' | b'%'), count @ ..] => {
            Ok(long_value(alloc, *sign, count_of(count)?)?)
        }
        _ => plain_of(word),
    }
}

/// The value, other than a list, that begins these bytes, and what stands behind it.
pub(crate) fn value_of(alloc: Global, bytes: &[u8]) -> Result<(Value, &[u8]), Fail> {
    if let [b'"', ..] = bytes {
        return match quoted_of(alloc, bytes, LONGEST_TEXT)? {
            Some((text, rest)) => Ok((Value::Text(text), rest)),
            None => Err(Fail::from("no value")),
        };
    }
    let (word, rest) = word_in(bytes);
    Ok((word_value(alloc, word)?, rest))
}
