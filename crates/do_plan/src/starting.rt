ghost use Rattle.do_sched.specs.declared.fault.SchedFault as fault;
ghost use Rattle.do_plan.specs.declared.starts.StartLine as line;
ghost use Rattle.std.specs.Prelude.{◌≡◌, List as Listed, Ok, Err, IfOk};
ghost use Rattle.do_sched.specs.Answers.{AnswersWith};
ghost use Rattle.do_plan.specs.{Form.{IsText, IsFault}, Reading.Tells};
ghost use Rattle.do_plan.specs.Starts.{count_at, sent_at, start_form_at, start_at, starts_form};

use crate::form::LineForm;
use crate::reading::lines_of;
use crate::starts::{StartLine, Starts};
use do_base::{LONGEST_TEXT, Text};
use do_grammar::{colons_in, dec_of, is_selector, is_text};
use do_sched::{SchedFault, part_in, values_of, word_in};
use std::alloc::{AllocError, Global};

/// The lines of starts between their first line `starts 1` and `end`: 10,000 at most.
///
/// Every line, the last one too, is closed by a line feed, one space parts its words, and there is
/// no second way to write it: `start SELECTOR VALUE..`, `serve N`, `until N`, `leave`. Where the
/// bytes are no starts, the first line at fault is told; `TooMany` is the 10,001st of these lines.
pub fn read_starts(alloc: Global, bytes: &[u8]) -> Result<Starts, SchedFault>
    ensures exact { Tells starts_form bytes.now result }
    ensures accepts { (lines : Listed line.StartLine) → IsText starts_form bytes.now lines
        → AnswersWith (Ok lines) result }
    ensures refuses { (fault : fault.SchedFault) → IsFault starts_form bytes.now fault
        → AnswersWith (Err fault) result }
{
    lines_of(alloc, bytes)
}

impl LineForm for StartLine {
    ghost use Rattle.do_plan.specs.Starts.{starts_form, start_at};

    ghost form = { starts_form };

    ghost line_at = { start_at };

    fn header() -> &'static [u8] {
        b"starts 1"
    }

    fn least() -> usize {
        0
    }

    fn most() -> usize {
        10_000
    }

    fn line_from(alloc: Global, text: &[u8]) -> Result<Option<StartLine>, AllocError> {
        start_line(alloc, text)
    }
}

/// A count of 64 bits.
fn count_of(bytes: &[u8]) -> Option<u64>
    ensures { result ≡ count_at bytes.now }
{
    dec_of(bytes, 0, u64::MAX)
}

/// A selector, and a value for each of its colons.
fn sent_of(alloc: Global, selector: &[u8], values: &[u8]) -> Result<Option<StartLine>, AllocError>
    ensures { IfOk result (λ line. line ≡ sent_at (selector.now, values.now)) }
{
    if !is_selector(selector) {
        return Ok(None);
    }
    let Some(values) = values_of(alloc, values, colons_in(selector), LONGEST_TEXT)? else {
        return Ok(None);
    };
    let selector = Text::from_slice(alloc, selector)?;
    Ok(Some(StartLine::Start { selector, values }))
}

/// The line that a first word and what stands behind it are.
fn form_of(alloc: Global, first: &[u8], rest: &[u8]) -> Result<Option<StartLine>, AllocError>
    ensures { IfOk result (λ line. line ≡ start_form_at (first.now, rest.now)) }
{
    if is_text(first, b"serve") {
        return Ok(count_of(rest).map(StartLine::Serve));
    }
    if is_text(first, b"until") {
        return Ok(count_of(rest).map(StartLine::Until));
    }
    if is_text(first, b"start") {
        let (selector, values) = part_in(rest);
        return sent_of(alloc, selector, values);
    }
    Ok(None)
}

/// The line that a text without its line feed spells, if it spells one.
#[tactic(auto, unfolding(crate::specs::Starts::start_at))]
fn start_line(alloc: Global, text: &[u8]) -> Result<Option<StartLine>, AllocError>
    ensures { IfOk result (λ line. line ≡ start_at text.now) }
{
    if is_text(text, b"leave") {
        return Ok(Some(StartLine::Leave));
    }
    let Some((first, rest)) = word_in(text) else {
        return Ok(None);
    };
    form_of(alloc, first, rest)
}
