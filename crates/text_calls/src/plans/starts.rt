//! Calls of the reader of starts.

use crate::plans::answers::{fault_value, repeated_at};
use call_rows::{Part, count_value, no_call, text_at, word_alone, word_with, word_with_two};
use do_base::{Text, Value, Values};
use do_grammar::is_text;
use do_plan::{StartLine, Starts, read_starts};
use std::alloc::Global;
use std::test::Fail;

/// Nothing but where answers are made.
#[derive(Drop)]
pub(crate) struct StartCalls {
    alloc: Global,
}

/// A word and a count.
fn counted(alloc: Global, word: &[u8], count: u64) -> Result<Value, Fail> {
    let count = Value::Num(i64::try_from(count)?);
    word_with(alloc, word, count)
}

/// A line that starts a method: its selector and its values.
fn start_value(alloc: Global, selector: &Text, values: &Values) -> Result<Value, Fail> {
    let selector = Value::Text(selector.clone()?);
    let values = Value::List(values.clone()?);
    word_with_two(alloc, b"start", selector, values)
}

/// A line of starts.
fn line_value(alloc: Global, line: &StartLine) -> Result<Value, Fail> {
    match line {
        StartLine::Start { selector, values } => start_value(alloc, selector, values),
        StartLine::Serve(count) => counted(alloc, b"serve", *count),
        StartLine::Until(count) => counted(alloc, b"until", *count),
        StartLine::Leave => word_alone(alloc, b"leave"),
    }
}

/// The lines of starts, at the end of a list.
fn push_lines(answer: &mut Values, starts: &Starts) -> Result<(), Fail> {
    for line in starts.as_slice() {
        answer.push(line_value(answer.allocator(), line)?)?;
    }
    Ok(())
}

/// The lines of starts.
fn starts_value(alloc: Global, starts: &Starts) -> Result<Value, Fail> {
    let mut answer = Values::new(alloc);
    push_lines(&mut answer, starts)?;
    Ok(Value::List(answer))
}

impl StartCalls {
    /// Calls whose answers are made there.
    pub(crate) fn new(alloc: Global) -> StartCalls {
        StartCalls { alloc }
    }

    /// Reads starts, and gives their lines.
    fn starts(&self, args: &Values) -> Result<Value, Fail> {
        match read_starts(self.alloc, text_at(args, 0)?.as_slice()) {
            Ok(starts) => starts_value(self.alloc, &starts),
            Err(fault) => fault_value(self.alloc, fault),
        }
    }

    /// Reads starts, and gives how many lines they have.
    fn count_starts(&self, args: &Values) -> Result<Value, Fail> {
        let text = repeated_at(args)?;
        match read_starts(self.alloc, text.as_slice()) {
            Ok(starts) => count_value(starts.len()),
            Err(fault) => fault_value(self.alloc, fault),
        }
    }
}

impl Part for StartCalls {
    fn call(&mut self, word: &[u8], args: &Values) -> Result<Value, Fail> {
        if is_text(word, b"starts") {
            return self.starts(args);
        }
        if is_text(word, b"many_starts") {
            return self.count_starts(args);
        }
        no_call()
    }
}
