//! Calls that change what commands run over.

use crate::files::{given_files, long_file, starts_file};
use crate::outside::Outside;
use crate::spawners::spawner_of;
use crate::words::calls_of;
use call_rows::{Part, call_of, count_at, list_at, number_at, text_at};
use do_base::{MemShelf, Value, Values};
use std::test::Fail;

/// What a row calls.
#[derive(Clone, Copy)]
enum Call {
    Files,
    Failing,
    Long,
    Starts,
    Link,
    Children,
    Puts,
}

/// The words of the calls.
const CALLS: [(&[u8], Call); 7] = [
    (b"files", Call::Files),
    (b"failing", Call::Failing),
    (b"long", Call::Long),
    (b"starts", Call::Starts),
    (b"link", Call::Link),
    (b"children", Call::Children),
    (b"puts", Call::Puts),
];

impl Outside {
    /// Takes files, a name and its bytes each.
    fn set_given(&mut self, args: &Values) -> Result<Value, Fail> {
        let files = given_files(args)?;
        self.set_files(files)
    }

    /// Takes files of which some fetches fail.
    fn set_failing(&mut self, args: &Values) -> Result<Value, Fail> {
        let fetches = calls_of(list_at(args, 0)?)?;
        let files = given_files(list_at(args, 1)?)?;
        self.shelf = MemShelf::new(self.alloc, files, fetches)?;
        Ok(Value::Nil)
    }

    /// Takes a file of as many bytes.
    fn set_long(&mut self, args: &Values) -> Result<Value, Fail> {
        let count = usize::try_from(number_at(args, 1)?)?;
        self.set_files(long_file(self.alloc, text_at(args, 0)?, count)?)
    }

    /// Takes a file of starts of as many lines.
    fn set_starts(&mut self, args: &Values) -> Result<Value, Fail> {
        let files = starts_file(text_at(args, 0)?, count_at(args, 1)?, text_at(args, 2)?)?;
        self.set_files(files)
    }

    /// Takes another link.
    fn set_link(&mut self, script: &Values) -> Result<Value, Fail> {
        self.script = script.clone()?;
        self.links.call(b"link", script)
    }

    /// Takes the numbers of the puts that fail.
    fn set_puts(&mut self, args: &Values) -> Result<Value, Fail> {
        self.puts = calls_of(args)?;
        Ok(Value::Nil)
    }

    /// Takes other children.
    fn set_children(&mut self, args: &Values) -> Result<Value, Fail> {
        self.spawn = spawner_of(list_at(args, 0)?, list_at(args, 1)?, list_at(args, 2)?)?;
        Ok(Value::Nil)
    }
}

impl Part for Outside {
    fn call(&mut self, word: &[u8], args: &Values) -> Result<Value, Fail> {
        match call_of(&CALLS, word) {
            Some(Call::Files) => self.set_given(args),
            Some(Call::Failing) => self.set_failing(args),
            Some(Call::Long) => self.set_long(args),
            Some(Call::Starts) => self.set_starts(args),
            Some(Call::Link) => self.set_link(args),
            Some(Call::Children) => self.set_children(args),
            Some(Call::Puts) => self.set_puts(args),
            None => self.links.call(word, args),
        }
    }
}
