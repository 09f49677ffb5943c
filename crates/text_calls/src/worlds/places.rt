//! Places of documents as rows write them.

use crate::worlds::faults::fault_value;
use call_rows::{call_of, count_at, list_at, text_at};
use do_base::{Text, Value, Values};
use do_document::{Place, WorldFault};
use do_grammar::is_text;
use std::alloc::Global;
use std::test::Fail;

/// A place of a document.
#[derive(Clone, Copy)]
enum Kind {
    Top,
    Class,
    Node,
    Method,
    Allow,
    Deny,
}

/// The words of the places.
const PLACES: [(&[u8], Kind); 6] = [
    (b"top", Kind::Top),
    (b"class", Kind::Class),
    (b"node", Kind::Node),
    (b"method", Kind::Method),
    (b"allow", Kind::Allow),
    (b"deny", Kind::Deny),
];

/// The number at a place, or 0 where there is none.
fn number_in(parts: &Values, at: usize) -> Result<usize, Fail> {
    match parts.get(at) {
        Some(_) => Ok(usize::from(count_at(parts, at)?)),
        None => Ok(0),
    }
}

/// The place of a word and numbers.
fn place_of(parts: &Values) -> Result<Place, Fail> {
    let word = text_at(parts, 0)?;
    let kind = call_of(&PLACES, word.as_slice()).ok_or("no place")?;
    let (first, second) = (number_in(parts, 1)?, number_in(parts, 2)?);
    match kind {
        Kind::Top => Ok(Place::Top),
        Kind::Class => Ok(Place::Class(first)),
        Kind::Node => Ok(Place::Node(first)),
        Kind::Method => Ok(Place::Method(first, second)),
        Kind::Allow => Ok(Place::Allowed(first, second)),
        Kind::Deny => Ok(Place::Denied(first, second)),
    }
}

/// The key that a text is.
pub(crate) fn key_of(text: &Text) -> Result<&str, Fail> {
    Ok(std::str::from_utf8(text.as_slice()).map_err(|_| "no key")?)
}

/// The path of a key at a place.
pub(crate) fn path(alloc: Global, args: &Values) -> Result<Value, Fail> {
    let place = place_of(list_at(args, 0)?)?;
    let key = key_of(text_at(args, 1)?)?;
    Ok(Value::Text(place.path(alloc, key)?))
}

/// The fault of a word: that a key of a place is missing or wrong, that a member of its list is
/// wrong, or that memory ran out.
fn fault_of(alloc: Global, word: &[u8], place: Place, args: &Values) -> Result<WorldFault, Fail> {
    let key = key_of(text_at(args, 2)?)?;
    if is_text(word, b"missing") {
        return Ok(place.missing(alloc, key));
    }
    if is_text(word, b"wrong") {
        return Ok(place.wrong(alloc, key));
    }
    if is_text(word, b"wrong_member") {
        let member = usize::from(count_at(args, 3)?);
        return Ok(place.wrong_member(alloc, key, member));
    }
    Ok(WorldFault::Memory)
}

/// A fault at a place, as it is printed.
pub(crate) fn fault_at(alloc: Global, args: &Values) -> Result<Value, Fail> {
    let word = text_at(args, 0)?.as_slice();
    let place = place_of(list_at(args, 1)?)?;
    fault_value(alloc, &fault_of(alloc, word, place, args)?)
}
