//! Calls of what generates schedules.

use call_rows::{Part, count_at, no_call, number_at};
use do_base::{Value, Values};
use do_generate::generate;
use do_grammar::is_text;
use do_sched::{Lines, print_line};
use std::alloc::{AllocError, Global};
use std::test::Fail;

/// Nothing but where answers are made.
#[derive(Drop)]
pub(crate) struct GeneratedCalls {
    alloc: Global,
}

/// The lines of a schedule as they are written, at the end of a list.
fn push_lines(answer: &mut Values, lines: &Lines) -> Result<(), AllocError> {
    for line in lines.as_slice() {
        answer.push(Value::Text(print_line(answer.allocator(), line)?))?;
    }
    Ok(())
}

impl GeneratedCalls {
    /// Calls whose answers are made there.
    pub(crate) fn new(alloc: Global) -> GeneratedCalls {
        GeneratedCalls { alloc }
    }

    /// The lines that a number gives, and how many.
    fn generated(&self, number: u64, count: u64) -> Result<Value, Fail> {
        let lines = generate(self.alloc, number, count)?;
        let mut answer = Values::new(self.alloc);
        push_lines(&mut answer, &lines)?;
        Ok(Value::List(answer))
    }
}

impl Part for GeneratedCalls {
    fn call(&mut self, word: &[u8], args: &Values) -> Result<Value, Fail> {
        if is_text(word, b"generate") {
            let number = u64::try_from(number_at(args, 0)?)?;
            return self.generated(number, u64::from(count_at(args, 1)?));
        }
        no_call()
    }
}
