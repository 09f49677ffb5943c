//! Calls of the readers of schedules, and of their printer.

use crate::repeated::repeated;
use call_rows::{Part, call_of, count_value, no_call, number_at, pair_value, printed, text_at};
use do_base::{Text, Value, Values};
use do_sched::{Lines, SchedFault, push_line, read_schedule, upgrade};
use std::alloc::{AllocError, Global};
use std::test::Fail;

/// What a row calls.
#[derive(Clone, Copy)]
enum Call {
    Lines,
    Again,
    Upgrade,
    Both,
    Million,
    Letters,
    FirstLetters,
}

/// The words of the calls.
const CALLS: [(&[u8], Call); 7] = [
    (b"lines", Call::Lines),
    (b"again", Call::Again),
    (b"upgrade", Call::Upgrade),
    (b"both", Call::Both),
    (b"million", Call::Million),
    (b"letters", Call::Letters),
    (b"first_letters", Call::FirstLetters),
];

/// The readers of schedules of both versions.
#[derive(Drop)]
pub(crate) struct ScheduleCalls {
    alloc: Global,
}

/// A first line and what stands behind it.
fn behind(alloc: Global, header: &[u8], rest: &Text) -> Result<Text, AllocError> {
    let mut text = Text::from_slice(alloc, header)?;
    text.push_bytes(rest.as_slice())?;
    Ok(text)
}

/// Adds these lines, and the line of the end.
fn push_lines(out: &mut Text, lines: &Lines) -> Result<(), AllocError> {
    for line in lines.as_slice() {
        push_line(out, line)?;
        out.push(b'\n')?;
    }
    out.push_bytes(b"end\n")
}

/// A whole schedule of these lines.
fn whole(alloc: Global, lines: &Lines) -> Result<Value, Fail> {
    let mut out = Text::from_slice(alloc, b"schedule 2\n")?;
    push_lines(&mut out, lines)?;
    Ok(Value::Text(out))
}

/// Adds a line that starts a method with a text of these letters, and the line of the end.
fn push_start(out: &mut Text, letters: &[u8]) -> Result<(), AllocError> {
    out.push_bytes(b"\nstart 7001 go: \"")?;
    out.push_bytes(letters)?;
    out.push_bytes(b"\"\nend\n")
}

/// A schedule with such a line behind its first one.
fn started(alloc: Global, header: &[u8], letters: &[u8]) -> Result<Text, AllocError> {
    let mut text = Text::from_slice(alloc, header)?;
    push_start(&mut text, letters)?;
    Ok(text)
}

/// How many lines a schedule has, or its first fault, printed.
fn counted(alloc: Global, read: Result<Lines, SchedFault>) -> Result<Value, Fail> {
    match read {
        Ok(lines) => count_value(lines.len()),
        Err(fault) => printed(alloc, fault),
    }
}

impl ScheduleCalls {
    /// Calls that take memory here.
    pub(crate) fn new(alloc: Global) -> ScheduleCalls {
        ScheduleCalls { alloc }
    }

    /// Reads a schedule, and prints it again.
    fn again(&self, text: &Text) -> Result<Value, Fail> {
        match read_schedule(self.alloc, text.as_slice()) {
            Ok(lines) => whole(self.alloc, &lines),
            Err(fault) => printed(self.alloc, fault),
        }
    }

    /// A schedule of the first version, written anew, or its first fault, printed.
    fn upgraded(&self, text: &Text) -> Result<Value, Fail> {
        match upgrade(self.alloc, text.as_slice()) {
            Ok(text) => Ok(Value::Text(text)),
            Err(fault) => printed(self.alloc, fault),
        }
    }

    /// How many lines a schedule has, or its first fault, printed.
    fn lines(&self, text: &Text) -> Result<Value, Fail> {
        counted(self.alloc, read_schedule(self.alloc, text.as_slice()))
    }

    /// What the readers of both versions say of what stands behind the first line.
    fn both(&self, rest: &Text) -> Result<Value, Fail> {
        let second = self.lines(&behind(self.alloc, b"schedule 2", rest)?)?;
        let first = self.upgraded(&behind(self.alloc, b"schedule 1", rest)?)?;
        pair_value(self.alloc, second, first)
    }

    /// A thousand runs of a thousand steps, and then these lines.
    fn million(&self, last: &Text) -> Result<Value, Fail> {
        let mut text = repeated(self.alloc, b"schedule 2\n", b"run 1 1000\n", 1000)?;
        text.push_bytes(last.as_slice())?;
        self.lines(&text)
    }

    /// A start with a text of as many letters, behind a first line.
    fn started(&self, header: &[u8], args: &Values) -> Result<Text, Fail> {
        let letters = usize::try_from(number_at(args, 0)?)?;
        let letters = vec![in self.alloc; b'a'; letters]?;
        Ok(started(self.alloc, header, &letters)?)
    }

    /// How many lines a schedule with such a start has, or its first fault, printed.
    fn lines_started(&self, args: &Values) -> Result<Value, Fail> {
        let text = self.started(b"schedule 2", args)?;
        self.lines(&text)
    }

    /// The fault of a schedule of the first version with such a start, printed, or nil.
    fn first_started(&self, args: &Values) -> Result<Value, Fail> {
        let text = self.started(b"schedule 1", args)?;
        match upgrade(self.alloc, text.as_slice()) {
            Ok(_upgraded) => Ok(Value::Nil),
            Err(fault) => printed(self.alloc, fault),
        }
    }
}

impl Part for ScheduleCalls {
    fn call(&mut self, word: &[u8], args: &Values) -> Result<Value, Fail> {
        match call_of(&CALLS, word) {
            Some(Call::Lines) => self.lines(text_at(args, 0)?),
            Some(Call::Again) => self.again(text_at(args, 0)?),
            Some(Call::Upgrade) => self.upgraded(text_at(args, 0)?),
            Some(Call::Both) => self.both(text_at(args, 0)?),
            Some(Call::Million) => self.million(text_at(args, 0)?),
            Some(Call::Letters) => self.lines_started(args),
            Some(Call::FirstLetters) => self.first_started(args),
            None => no_call(),
        }
    }
}
