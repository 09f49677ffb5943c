//! Calls of what reads names, quoted texts, lines and words.

use call_rows::{
    Part, call_of, count_at, count_value, no_call, pair_value, text_at, text_value, triple_value,
};
use do_base::{Text, Value, Values};
use do_grammar::{
    colons_in, is_name, is_selector, line_of, part_of, push_quoted, quoted_of, word_of,
};
use do_native_acts::as_number;
use std::alloc::Global;
use std::test::Fail;

/// What a row calls.
#[derive(Clone, Copy)]
enum Call {
    IsName,
    IsSelector,
    Colons,
    Quote,
    Quoted,
    Line,
    Word,
    Part,
}

/// The words of the calls.
const CALLS: [(&[u8], Call); 8] = [
    (b"is_name", Call::IsName),
    (b"is_selector", Call::IsSelector),
    (b"colons", Call::Colons),
    (b"quote", Call::Quote),
    (b"quoted", Call::Quoted),
    (b"line", Call::Line),
    (b"word", Call::Word),
    (b"part", Call::Part),
];

/// The readers of names, quoted texts, lines and words.
#[derive(Drop)]
pub(crate) struct NameCalls {
    alloc: Global,
}

/// Two pieces of a text.
fn pieces(alloc: Global, first: &[u8], rest: &[u8]) -> Result<Value, Fail> {
    let first = text_value(alloc, first)?;
    let rest = text_value(alloc, rest)?;
    pair_value(alloc, first, rest)
}

impl NameCalls {
    /// Calls that take memory here.
    pub(crate) fn new(alloc: Global) -> NameCalls {
        NameCalls { alloc }
    }

    /// A text in quotes.
    fn quote(&self, text: &Text) -> Result<Value, Fail> {
        let mut out = Text::new(self.alloc);
        push_quoted(&mut out, text.as_slice())?;
        Ok(Value::Text(out))
    }

    /// The text in quotes of at most as many bytes, and what stands behind it.
    fn quoted(&self, text: &Text, args: &Values) -> Result<Value, Fail> {
        let limit = usize::from(count_at(args, 1)?);
        match quoted_of(self.alloc, text.as_slice(), limit)? {
            Some((found, rest)) => pieces(self.alloc, found.as_slice(), rest),
            None => Ok(Value::Nil),
        }
    }

    /// The first line, what stands behind it, and whether it has its line feed.
    fn line(&self, text: &Text) -> Result<Value, Fail> {
        let Some((line, fed, rest)) = line_of(text.as_slice()) else {
            return Ok(Value::Nil);
        };
        let line = text_value(self.alloc, line)?;
        let rest = text_value(self.alloc, rest)?;
        triple_value(self.alloc, line, rest, as_number(fed))
    }

    /// The first word, and what stands behind the space after it.
    fn word(&self, text: &Text) -> Result<Value, Fail> {
        match word_of(text.as_slice(), b' ') {
            Some((word, rest)) => pieces(self.alloc, word, rest),
            None => Ok(Value::Nil),
        }
    }

    /// What stands before the first space, and from it on.
    fn part(&self, text: &Text) -> Result<Value, Fail> {
        let (word, rest) = part_of(text.as_slice(), b' ');
        pieces(self.alloc, word, rest)
    }
}

impl Part for NameCalls {
    fn call(&mut self, word: &[u8], args: &Values) -> Result<Value, Fail> {
        let text = text_at(args, 0)?;
        match call_of(&CALLS, word) {
            Some(Call::IsName) => Ok(as_number(is_name(text.as_slice()))),
            Some(Call::IsSelector) => Ok(as_number(is_selector(text.as_slice()))),
            Some(Call::Colons) => count_value(colons_in(text.as_slice())),
            Some(Call::Quote) => self.quote(text),
            Some(Call::Quoted) => self.quoted(text, args),
            Some(Call::Line) => self.line(text),
            Some(Call::Word) => self.word(text),
            Some(Call::Part) => self.part(text),
            None => no_call(),
        }
    }
}
