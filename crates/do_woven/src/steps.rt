//! How many steps of a schedule records take.
ghost use Rattle.std.specs.Prelude.{◌≡◌, ◌+◌, ◌<◌, ◌≤◌, None, Some, sum_by};
ghost use Rattle.do_sched.specs.Schedule.{most_steps};
ghost use Rattle.do_woven.specs.Steps.{block_steps, input_steps, passing_line, record_steps};
ghost use Rattle.do_woven.specs.Steps.{steps_in};

use do_record::{Blocks, Record, RecordLine, Records};

/// The most single steps of a schedule.
const MOST_STEPS: u64 = 1_000_000;

/// How many steps an input takes: an end that came without notice takes two, the loss and the take.
fn input_steps(input: &RecordLine) -> u64
    ensures steps { result ≡ input_steps input.now }
    ensures few { result ≤ 2 }
{
    match input {
        RecordLine::Ended(_) => 2,
        _ => 1,
    }
}

/// The line of the first block with which the steps, `done` before, are too many.
pub(crate) fn passing_line(done: u64, blocks: &Blocks) -> Option<u64>
    requires { done ≤ most_steps }
    ensures line { result ≡ passing_line done blocks.now }
    ensures few { result ≡ None → done + sum_by block_steps blocks.now ≤ most_steps }
{
    let mut steps = done;
    for block in blocks.as_slice() {
        steps += input_steps(&block.input);
        if MOST_STEPS < steps {
            return Some(block.line);
        }
    }
    None
}

/// How many steps a record takes.
fn record_steps(record: &Record) -> u64
    requires { record_steps «record».now ≤ most_steps }
    ensures { result ≡ record_steps «record».now }
{
    let mut steps = 0;
    for block in record.blocks.as_slice() {
        steps += input_steps(&block.input);
    }
    steps
}

/// How many steps records take.
pub(crate) fn steps_in(records: &Records) -> u64
    requires { steps_in records.now ≤ most_steps }
    ensures { result ≡ steps_in records.now }
{
    let mut steps = 0;
    for record in records.as_slice() {
        steps += record_steps(record);
    }
    steps
}
