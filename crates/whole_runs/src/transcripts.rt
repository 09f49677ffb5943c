//! What stands in a transcript: its schedule, what it has without what was sent, and the records
//! of its nodes.

use do_base::Text;
use do_grammar::{is_text, line_of};
use do_sched::word_in;
use std::alloc::AllocError;

/// Adds a line.
fn push_line(text: &mut Text, line: &[u8]) -> Result<(), AllocError> {
    text.push_bytes(line)?;
    text.push(b'\n')
}

/// Adds the step that begins a block, where a line of a transcript begins one.
fn push_step(schedule: &mut Text, line: &[u8]) -> Result<(), AllocError> {
    match line {
        [b'>', b' ', step @ ..] => push_line(schedule, step),
        _ => Ok(()),
    }
}

/// Adds the steps that begin the blocks of a transcript.
fn push_steps(schedule: &mut Text, transcript: &[u8]) -> Result<(), AllocError> {
    for line in transcript.split(|byte| *byte == b'\n') {
        push_step(schedule, line)?;
    }
    Ok(())
}

/// The schedule whose lines begin the blocks of a transcript.
pub(crate) fn schedule_of(transcript: &Text) -> Result<Text, AllocError> {
    let mut schedule = Text::from_slice(transcript.allocator(), b"schedule 2\n")?;
    push_steps(&mut schedule, transcript.as_slice())?;
    Ok(schedule)
}

/// Adds the lines of a transcript but those of what was sent.
fn push_plain(plain: &mut Text, transcript: &[u8]) -> Result<(), AllocError> {
    for line in transcript.split(|byte| *byte == b'\n') {
        if !line.is_empty() && !line.starts_with(b"wire ") {
            push_line(plain, line)?;
        }
    }
    Ok(())
}

/// The lines of a transcript but those of what was sent.
pub(crate) fn without_wires(transcript: &Text) -> Result<Text, AllocError> {
    let mut plain = Text::new(transcript.allocator());
    push_plain(&mut plain, transcript.as_slice())?;
    Ok(plain)
}

/// Whether a step is one of the node of a port, as the last step is of each node.
fn is_of(step: &[u8], port: &[u8]) -> bool {
    let Some((_, behind)) = word_in(step) else {
        return is_text(step, b"end");
    };
    match word_in(behind) {
        Some((of, _)) => is_text(of, port),
        None => is_text(behind, port),
    }
}

/// Adds the blocks of a node that stand in a transcript, without what was sent.
fn push_blocks(record: &mut Text, transcript: &Text, port: &[u8]) -> Result<(), AllocError> {
    let mut is_own = false;
    let mut rest = transcript.as_slice();
    for _line in 0..transcript.len() {
        let Some((line, _, behind)) = line_of(rest) else {
            return Ok(());
        };
        rest = behind;
        if let [b'>', b' ', step @ ..] = line {
            is_own = is_of(step, port);
        }
        if is_own {
            push_line(record, line)?;
        }
    }
    Ok(())
}

/// The record of the node of a port over the schedule of a transcript without what was sent, in
/// which no step of another node is skipped.
pub(crate) fn record_of(transcript: &Text, port: &[u8]) -> Result<Text, AllocError> {
    let mut record = Text::from_slice(transcript.allocator(), b"record 1 ")?;
    push_line(&mut record, port)?;
    push_blocks(&mut record, transcript, port)?;
    Ok(record)
}
