//! Records that are read one behind another.
ghost use Rattle.std.specs.Prelude.{◌≡◌, ◌+◌, ◌≤◌, IfOk, None};
ghost use Rattle.do_sched.specs.{Answers.AnswersWith, Schedule.most_steps};
ghost use Rattle.do_woven.specs.Judging.{fault_line, has_record, has_seat, judged};
ghost use Rattle.do_woven.specs.Steps.{record_steps, steps_in};

use crate::steps::{passing_line, steps_in};
use do_base::NodeId;
use do_machine::Seats;
use do_record::{Record, Records, read_record};
use do_sched::SchedFault;
use std::alloc::Global;

/// Whether a port is that of a node of a world.
fn has_seat(seats: &Seats, port: NodeId) -> bool
    ensures { result ≡ has_seat seats.now port }
{
    seats.as_slice().iter().any(|seat| seat.node == port)
}

/// Whether one of some records is of a node.
fn has_record(records: &Records, port: NodeId) -> bool
    ensures { result ≡ has_record records.now port }
{
    records.as_slice().iter().any(|record| record.port == port)
}

/// The line at which a record may not stand behind others of a world, if there is one.
fn fault_line(seats: &Seats, earlier: &Records, record: &Record) -> Option<u64>
    requires { steps_in earlier.now ≤ most_steps }
    ensures line { result ≡ fault_line seats.now earlier.now «record».now }
    ensures few { result ≡ None →
        steps_in earlier.now + record_steps «record».now ≤ most_steps }
{
    if !has_seat(seats, record.port) || has_record(earlier, record.port) {
        return Some(1);
    }
    passing_line(steps_in(earlier), &record.blocks)
}

/// The record that bytes are, behind earlier records of the nodes of a world.
///
/// `BadLine` has the first line at fault: one that is no line of a record; else the first line,
/// where the record's node is not of the world or has an earlier record; else the line with which
/// all records take more than 1,000,000 steps, an end that came without notice taking two. No other
/// fault comes but that memory ran out.
pub fn record_behind(
    alloc: Global,
    seats: &Seats,
    earlier: &Records,
    bytes: &[u8],
) -> Result<Record, SchedFault>
    requires { steps_in earlier.now ≤ most_steps }
    ensures answer { AnswersWith (judged seats.now earlier.now bytes.now) result }
    ensures few { IfOk result (λ r. steps_in earlier.now + record_steps r ≤ most_steps) }
{
    let record = read_record(alloc, bytes)?;
    match fault_line(seats, earlier, &record) {
        Some(line) => Err(SchedFault::BadLine(line)),
        None => Ok(record),
    }
}
