ghost use Rattle.std.specs.Prelude.{◌≡◌, IfOk};
ghost use Rattle.do_plan.specs.Reading.{Reads, Tells, line_in};
ghost use Rattle.do_sched.specs.Reading.{is_whole};

use crate::form::LineForm;
use do_base::Items;
use do_grammar::{is_text, line_of};
use do_sched::SchedFault;
use std::alloc::{AllocError, Global};

/// The lines of a text, or its first fault.
pub(crate) fn lines_of<F: LineForm>(alloc: Global, bytes: &[u8]) -> Result<Items<F>, SchedFault>
    ensures { Reads F.form F.line_at → Tells F.form bytes.now result }
{
    let Some((text, fed, behind)) = line_of(bytes) else {
        return Err(SchedFault::NoEnd(1));
    };
    if !is_whole_line(text, fed, F::header()) {
        return Err(SchedFault::BadLine(1));
    }
    let mut lines = Items::new(alloc);
    let mut number: u64 = 1;
    let mut rest = behind;
    'lines: loop {
        number += 1;
        let Some((text, fed, after)) = line_of(rest) else {
            return Err(SchedFault::NoEnd(number));
        };
        if is_whole_line(text, fed, b"end") {
            if lines.len() < F::least() {
                return Err(SchedFault::BadLine(number));
            }
            if after.is_empty() {
                return Ok(lines);
            }
            return Err(SchedFault::BadLine(number + 1));
        }
        let Some(line) = fed_line(alloc, text, fed)? else {
            return Err(SchedFault::BadLine(number));
        };
        if lines.len() >= F::most() {
            return Err(SchedFault::TooMany(number));
        }
        lines.push(line)?;
        rest = after;
    }
}

/// Whether a line is this text and has its line feed.
fn is_whole_line(text: &[u8], fed: bool, wanted: &[u8]) -> bool
    ensures { result ≡ is_whole wanted.now (record { text = text.now; fed = fed }) }
{
    fed && is_text(text, wanted)
}

/// The line of a form that a line of text is, where it has its line feed.
fn fed_line<F: LineForm>(alloc: Global, text: &[u8], fed: bool) -> Result<Option<F>, AllocError>
    ensures { IfOk result
        (λ line. line ≡ line_in F.line_at (record { text = text.now; fed = fed })) }
{
    if fed {
        F::line_from(alloc, text)
    } else {
        Ok(None)
    }
}
