//! Calls of the reader of a command's words, and of the texts of `--help` and `--version`.

use crate::repeated::repeated;
use call_rows::{Part, call_of, count_at, count_value, no_call, printed, shown, text_at};
use do_base::{Items, Text, Texts, Value, Values};
use do_cli::{Command, WordFault, push_help, push_version, read_words};
use do_native_acts::as_number;
use std::alloc::{AllocError, Global};
use std::test::Fail;

/// What a row calls.
#[derive(Clone, Copy)]
enum Call {
    Command,
    Stuck,
    Fault,
    Helps,
    Version,
}

/// The words of the calls.
const CALLS: [(&[u8], Call); 5] = [
    (b"command", Call::Command),
    (b"stuck", Call::Stuck),
    (b"fault", Call::Fault),
    (b"helps", Call::Helps),
    (b"version", Call::Version),
];

/// The reader of words.
#[derive(Drop)]
pub(crate) struct CommandCalls {
    alloc: Global,
}

/// Adds the words of a line, of which a space stands between each two.
fn push_words(words: &mut Texts, line: &[u8]) -> Result<(), AllocError> {
    for word in line.split(|byte| *byte == b' ') {
        words.push(Text::from_slice(words.allocator(), word)?)?;
    }
    Ok(())
}

/// The words of a line, none in an empty one.
fn words(alloc: Global, line: &[u8]) -> Result<Texts, AllocError> {
    let mut words = Items::new(alloc);
    if !line.is_empty() {
        push_words(&mut words, line)?;
    }
    Ok(words)
}

/// The word at which no form goes on.
fn fault_value(fault: WordFault) -> Result<Value, Fail> {
    match fault {
        WordFault::Usage(word) => count_value(word),
        WordFault::Memory => Err(Fail::from(AllocError)),
    }
}

/// The characters of a text.
fn str_of(text: &Text) -> Result<&str, Fail> {
    Ok(std::str::from_utf8(text.as_slice()).ok().ok_or("no UTF-8")?)
}

impl CommandCalls {
    /// Calls that take memory here.
    pub(crate) fn new(alloc: Global) -> CommandCalls {
        CommandCalls { alloc }
    }

    /// The command of a line, printed, or the word at which no form goes on.
    fn command(&self, args: &Values) -> Result<Value, Fail> {
        let line = text_at(args, 0)?;
        let words = words(self.alloc, line.as_slice())?;
        match read_words(words.as_slice()) {
            Ok(command) => shown(self.alloc, &command),
            Err(fault) => fault_value(fault),
        }
    }

    /// The word of a line at which no form goes on, nil where there is none. A piece stands behind
    /// the line so many times.
    fn stuck(&self, args: &Values) -> Result<Value, Fail> {
        let (line, piece) = (text_at(args, 0)?, text_at(args, 1)?);
        let count = count_at(args, 2)?;
        let line = repeated(self.alloc, line.as_slice(), piece.as_slice(), count)?;
        let words = words(self.alloc, line.as_slice())?;
        match read_words(words.as_slice()) {
            Ok(_) => Ok(Value::Nil),
            Err(fault) => fault_value(fault),
        }
    }

    /// The word at which no form goes on, printed.
    fn fault(&self, args: &Values) -> Result<Value, Fail> {
        let at = usize::from(count_at(args, 0)?);
        printed(self.alloc, WordFault::Usage(at))
    }

    /// Whether the text of `--help` holds this one.
    fn helps(&self, args: &Values) -> Result<Value, Fail> {
        let part = str_of(text_at(args, 0)?)?;
        let mut text = Text::new(self.alloc);
        push_help(&mut text)?;
        Ok(as_number(str_of(&text)?.contains(part)))
    }

    /// A text and the version behind it.
    fn version(&self, args: &Values) -> Result<Value, Fail> {
        let mut text = text_at(args, 0)?.clone()?;
        push_version(&mut text)?;
        Ok(Value::Text(text))
    }
}

impl Part for CommandCalls {
    fn call(&mut self, word: &[u8], args: &Values) -> Result<Value, Fail> {
        match call_of(&CALLS, word) {
            Some(Call::Command) => self.command(args),
            Some(Call::Stuck) => self.stuck(args),
            Some(Call::Fault) => self.fault(args),
            Some(Call::Helps) => self.helps(args),
            Some(Call::Version) => self.version(args),
            None => no_call(),
        }
    }
}
