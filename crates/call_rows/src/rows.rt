//! Rows of calls with their answers, and how they are played.
//!
//! A row is a call and, behind `=`, its answer; where there is no `=` the answer is nil. One within
//! a text does not count. A call is a word and its arguments. A line that is empty or begins with
//! `-` is no row.

use crate::reading::values_of;
use do_base::{Text, Value, Values};
use do_grammar::{is_text, line_of, part_of, push_dec};
use do_sched::push_value;
use std::alloc::{AllocError, Global};
use std::fs;
use std::test::Fail;

/// What rows call.
pub trait Part: Drop {
    /// Makes the call of a word and these arguments, and gives its answer as a value.
    fn call(&mut self, word: &[u8], args: &Values) -> Result<Value, Fail>;
}

/// What a table has at a word. None exactly where it does not have the word.
pub fn call_of<C: Copy>(calls: &[(&[u8], C)], word: &[u8]) -> Option<C> {
    for at in 0..calls.len() {
        if is_text(calls[at].0, word) {
            return Some(calls[at].1);
        }
    }
    None
}

/// The answer that a row names.
fn named_answer(alloc: Global, named: &[u8]) -> Result<Value, Fail> {
    let mut values = values_of(alloc, named)?;
    match values.pop() {
        Some(value) => Ok(value),
        None => Ok(Value::Nil),
    }
}

/// Adds a row to the report, and the answer that came.
fn report_row(report: &mut Text, row: &[u8], answer: &Value) -> Result<(), AllocError> {
    report.push_bytes(row)?;
    report.push_bytes(b" IS ")?;
    push_value(report, answer)?;
    report.push(b'\n')
}

/// The answer of a call as a row writes it.
fn answer_of<P: Part>(alloc: Global, part: &mut P, call: &[u8]) -> Result<Value, Fail> {
    let (word, args) = part_of(call, b' ');
    let args = values_of(alloc, args)?;
    part.call(word, &args)
}

/// The call of a row, and the answer that it names.
fn parts_of(row: &[u8]) -> (&[u8], &[u8]) {
    let mut in_text = false;
    for n in 0..row.len() {
        if row[n] == b'"' {
            in_text = !in_text;
        }
        if row[n] == b'=' && !in_text {
            return (&row[..n], &row[n + 1..]);
        }
    }
    (row, &[])
}

/// Plays a row, and adds it to the report with the answer that came, where that is another one.
fn play_row<P: Part>(
    alloc: Global,
    part: &mut P,
    row: &[u8],
    report: &mut Text,
) -> Result<(), Fail> {
    let (call, named) = parts_of(row);
    let answer = answer_of(alloc, part, call)?;
    let named = named_answer(alloc, named)?;
    if answer != named {
        report_row(report, row, &answer)?;
    }
    Ok(())
}

/// Plays rows from the first to the last, reports those whose answer is another one, and tells how
/// many rows there were.
fn play<P: Part>(alloc: Global, part: &mut P, rows: &[u8], report: &mut Text) -> Result<u64, Fail> {
    let mut count: u64 = 0;
    let mut rest = rows;
    for _line in 0..rows.len() {
        let Some((line, _, behind)) = line_of(rest) else {
            return Ok(count);
        };
        rest = behind;
        if !line.is_empty() && line[0] != b'-' {
            play_row(alloc, part, line, report)?;
            count = count.saturating_add(1);
        }
    }
    Ok(count)
}

/// Adds how many rows a file has to the report.
fn report_count(report: &mut Text, name: &str, count: u64) -> Result<(), AllocError> {
    report.push_bytes(name.as_bytes())?;
    report.push_bytes(b": ")?;
    push_dec(report, count)?;
    report.push_bytes(b" rows\n")
}

/// Plays the rows of a file, and reports those whose answer is another one, and behind them how
/// many rows there are.
///
/// It ends where a row makes no call, or memory runs out.
pub fn play_file<P: Part>(
    rt: &HostRuntime,
    name: &str,
    mut part: P,
    report: &mut Text,
) -> Result<(), Fail> {
    let rows = fs::read(rt, name)?;
    let count = play(rt.alloc(), &mut part, rows.as_slice(), report)?;
    report_count(report, name, count)?;
    Ok(())
}
