//! Calls of texts that share their bytes, and the failures of shelves and sinks as they are
//! printed.

use call_rows::{Part, call_of, count_at, no_call, number_at, pair_value, printed, text_at};
use do_base::{FetchFail, PutFail, Text, Value, Values};
use do_grammar::is_text;
use std::alloc::{AllocError, Global};
use std::test::Fail;

/// Texts, of which none is kept.
#[derive(Drop)]
pub(crate) struct BaseCalls {
    alloc: Global,
}

/// A failure of a shelf or of a sink.
#[derive(Clone, Copy)]
enum Failure {
    Fetch(FetchFail),
    Put(PutFail),
}

/// The failures that rows name.
const FAILURES: [(&[u8], Failure); 5] = [
    (b"unread", Failure::Fetch(FetchFail::Failed)),
    (
        b"long",
        Failure::Fetch(FetchFail::Long { read: 6, limit: 5 }),
    ),
    (b"fetch_memory", Failure::Fetch(FetchFail::Memory)),
    (b"unwritten", Failure::Put(PutFail::Failed)),
    (b"put_memory", Failure::Put(PutFail::Memory)),
];

/// Puts a byte into a text at a place.
fn put(text: &mut Text, at: usize, byte: u8) -> Result<(), Fail> {
    if at >= text.len() {
        return Err(Fail::from("no such place"));
    }
    text.set(at, byte)?;
    Ok(())
}

/// A text with another byte at a place, and the text with which it shared its bytes.
fn changed(args: &Values) -> Result<Value, Fail> {
    let shared = text_at(args, 0)?;
    let at = usize::from(count_at(args, 1)?);
    let byte = u8::try_from(number_at(args, 2)?)?;
    let mut text = shared.clone()?;
    put(&mut text, at, byte)?;
    two(text, shared)
}

/// Two texts as a list.
fn two(first: Text, second: &Text) -> Result<Value, Fail> {
    let alloc = first.allocator();
    let second = second.clone()?;
    pair_value(alloc, Value::Text(first), Value::Text(second))
}

/// The bytes that a text gives up, as a text again.
fn given_up(alloc: Global, text: Text) -> Result<Text, AllocError> {
    Text::from_vec(alloc, text.into_vec()?)
}

impl BaseCalls {
    /// Calls that take memory here.
    pub(crate) fn new(alloc: Global) -> BaseCalls {
        BaseCalls { alloc }
    }

    /// The bytes that a text gives up, and the text with which it shared them.
    fn give_up(&self, shared: &Text) -> Result<Value, Fail> {
        let text = given_up(self.alloc, shared.clone()?)?;
        two(text, shared)
    }

    /// A failure, printed.
    fn print(&self, word: &Text) -> Result<Value, Fail> {
        match call_of(&FAILURES, word.as_slice()) {
            Some(Failure::Fetch(fail)) => printed(self.alloc, fail),
            Some(Failure::Put(fail)) => printed(self.alloc, fail),
            None => no_call(),
        }
    }
}

impl Part for BaseCalls {
    fn call(&mut self, word: &[u8], args: &Values) -> Result<Value, Fail> {
        if is_text(word, b"set") {
            return changed(args);
        }
        let text = text_at(args, 0)?;
        if is_text(word, b"into_vec") {
            return self.give_up(text);
        }
        if is_text(word, b"print") {
            return self.print(text);
        }
        no_call()
    }
}
