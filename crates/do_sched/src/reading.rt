ghost use Rattle.do_sched.specs.declared.line.Line as line;
ghost use Rattle.do_sched.specs.declared.fault.SchedFault as fault;
ghost use Rattle.std.specs.Prelude.{◌≡◌, List, Ok, Err, IfOk};
ghost use Rattle.do_sched.specs.{declared.version.Version.TheVariants.Second, Spelling.steps};
ghost use Rattle.do_sched.specs.{Schedule.{IsSchedule, IsFault}, Reading.{is_whole, line_in}};
ghost use Rattle.do_sched.specs.Answers.{TellsSchedule, AnswersWith};

use crate::fault::SchedFault;
use crate::line::{Line, Lines};
use crate::version::Version;
use crate::words::line_from;
use do_base::Items;
use do_grammar::{is_text, line_of};
use std::alloc::{AllocError, Global};

/// The most single steps that a schedule counts.
const MOST_STEPS: u64 = 1_000_000;

/// The lines of a schedule of the second version between its first line and `end`.
///
/// Every line, the last one too, is closed by a line feed. One space parts its words, and there is
/// no second way to write it. Where the bytes are no schedule, the first line at fault is told; see
/// `SchedFault`. A schedule of the first version is at fault in line 1; `upgrade` writes it anew.
/// The form is this project's own.
pub fn read_schedule(alloc: Global, bytes: &[u8]) -> Result<Lines, SchedFault>
    ensures exact { TellsSchedule Second bytes.now result }
    ensures accepts { (lines : List line.Line) → IsSchedule bytes.now lines
        → AnswersWith (Ok lines) result }
    ensures refuses { (fault : fault.SchedFault) → IsFault bytes.now fault
        → AnswersWith (Err fault) result }
{
    lines_of(alloc, bytes, Version::Second)
}

/// The lines of a schedule of a version.
pub(crate) fn lines_of(alloc: Global, bytes: &[u8], version: Version) -> Result<Lines, SchedFault>
    ensures { TellsSchedule version bytes.now result }
{
    let Some((text, fed, behind)) = line_of(bytes) else {
        return Err(SchedFault::NoEnd(1));
    };
    if !is_whole_line(text, fed, version.header()) {
        return Err(SchedFault::BadLine(1));
    }
    let mut lines = Items::new(alloc);
    let mut steps: u64 = 0;
    let mut number: u64 = 1;
    let mut rest = behind;
    'lines: loop {
        number += 1;
        let Some((text, fed, after)) = line_of(rest) else {
            return Err(SchedFault::NoEnd(number));
        };
        if is_whole_line(text, fed, b"end") {
            if after.is_empty() {
                return Ok(lines);
            }
            return Err(SchedFault::BadLine(number + 1));
        }
        let Some(line) = fed_line(alloc, text, fed, version)? else {
            return Err(SchedFault::BadLine(number));
        };
        let more = steps_in(&line);
        if more > MOST_STEPS - steps {
            return Err(SchedFault::TooMany(number));
        }
        steps += more;
        lines.push(line)?;
        rest = after;
    }
}

/// Whether a line is this text and has its line feed.
fn is_whole_line(text: &[u8], fed: bool, wanted: &[u8]) -> bool
    ensures { result ≡ is_whole wanted.now (record { text = text.now; fed = fed }) }
{
    fed && is_text(text, wanted)
}

/// The line of a schedule that a line of text is, where it has its line feed.
fn fed_line(
    alloc: Global,
    text: &[u8],
    fed: bool,
    version: Version,
) -> Result<Option<Line>, AllocError>
    ensures { IfOk result
        (λ line. line ≡ line_in version (record { text = text.now; fed = fed })) }
{
    if fed {
        line_from(alloc, text, version)
    } else {
        Ok(None)
    }
}

/// The single steps of a line.
fn steps_in(line: &Line) -> u64
    ensures { result ≡ steps line.now }
{
    match line {
        Line::Run { count, .. } => *count,
        _ => 1,
    }
}
