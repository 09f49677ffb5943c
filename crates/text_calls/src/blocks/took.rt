//! What was taken in a step, as a word and what it is about.

use call_rows::{call_of, object_at, text_at};
use do_base::{Exc, Text, Took, Values};
use std::test::Fail;

/// What is taken.
#[derive(Clone, Copy)]
enum Item {
    Reply,
    RootAsk,
    RootAnswer,
    Settled,
    End,
    Ask,
    Granted,
    Gone,
    Left,
    Call,
    Oneway,
    Raised,
}

/// Its words.
const ITEMS: [(&[u8], Item); 12] = [
    (b"reply", Item::Reply),
    (b"rootask", Item::RootAsk),
    (b"rootanswer", Item::RootAnswer),
    (b"settled", Item::Settled),
    (b"end", Item::End),
    (b"ask", Item::Ask),
    (b"granted", Item::Granted),
    (b"gone", Item::Gone),
    (b"left", Item::Left),
    (b"call", Item::Call),
    (b"oneway", Item::Oneway),
    (b"raised", Item::Raised),
];

/// The text at the second place.
fn name_at(args: &Values) -> Result<Text, Fail> {
    Ok(text_at(args, 1)?.clone()?)
}

/// An item that is about an object.
fn about_object(item: Item, args: &Values) -> Result<Took, Fail> {
    let oid = object_at(args, 1)?;
    match item {
        Item::Ask => Ok(Took::Ask(oid)),
        Item::Granted => Ok(Took::Granted(oid)),
        Item::Gone => Ok(Took::Gone(oid)),
        _ => Ok(Took::Left(oid)),
    }
}

/// An item that has a text.
fn with_name(item: Item, args: &Values) -> Result<Took, Fail> {
    let name = name_at(args)?;
    match item {
        Item::Call => Ok(Took::Call(name)),
        Item::Oneway => Ok(Took::Oneway(name)),
        _ => Ok(Took::Raised(Exc::User(name))),
    }
}

/// The item of these arguments: a word, and what it is about.
pub(crate) fn took_of(args: &Values) -> Result<Took, Fail> {
    let word = text_at(args, 0)?;
    let item = call_of(&ITEMS, word.as_slice()).ok_or("no such item")?;
    match item {
        Item::Reply => Ok(Took::Reply),
        Item::RootAsk => Ok(Took::RootAsk),
        Item::RootAnswer => Ok(Took::RootAnswer),
        Item::Settled => Ok(Took::Settled),
        Item::End => Ok(Took::End),
        Item::Ask | Item::Granted | Item::Gone | Item::Left => about_object(item, args),
        Item::Call | Item::Oneway | Item::Raised => with_name(item, args),
    }
}
