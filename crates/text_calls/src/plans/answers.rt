//! What the arguments and answers of rows of starts and of plans share.

use crate::repeated::repeated;
use call_rows::{count_at, text_at, word_with};
use do_base::{Text, Value, Values};
use do_sched::SchedFault;
use std::alloc::{AllocError, Global};
use std::test::Fail;

/// Why a text was refused, and the line.
pub(crate) fn fault_value(alloc: Global, fault: SchedFault) -> Result<Value, Fail> {
    let (kind, line): (&[u8], u64) = match fault {
        SchedFault::BadLine(line) => (b"bad", line),
        SchedFault::TooMany(line) => (b"many", line),
        SchedFault::NoEnd(line) => (b"no_end", line),
        SchedFault::Memory => return Err(Fail::from(AllocError)),
    };
    let line = Value::Num(i64::try_from(line)?);
    word_with(alloc, kind, line)
}

/// The first argument, the third behind it as often as the second says, and the fourth.
pub(crate) fn repeated_at(args: &Values) -> Result<Text, Fail> {
    let first = text_at(args, 0)?.as_slice();
    let count = count_at(args, 1)?;
    let line = text_at(args, 2)?.as_slice();
    let last = text_at(args, 3)?.as_slice();
    let mut text = repeated(args.allocator(), first, line, count)?;
    text.push_bytes(last)?;
    Ok(text)
}
