//! Texts that rows put together.

use crate::repeated::push_times;
use call_rows::{count_at, text_at};
use do_base::{Text, Value, Values};
use do_grammar::push_dec;
use std::alloc::AllocError;
use std::test::Fail;

/// Adds two texts as many times, and between them the numbers from 0.
fn push_numbered(
    out: &mut Text,
    front: &Text,
    count: u16,
    behind: &Text,
) -> Result<(), AllocError> {
    for number in 0..count {
        out.push_bytes(front.as_slice())?;
        push_dec(out, u64::from(number))?;
        out.push_bytes(behind.as_slice())?;
    }
    Ok(())
}

/// Adds a piece: a text; a text and how often it stands there; or with a second text, and numbers
/// between the two.
fn push_piece(out: &mut Text, piece: &Value) -> Result<(), Fail> {
    if let Some(text) = piece.text() {
        out.push_bytes(text.as_slice())?;
        return Ok(());
    }
    let parts = piece.items().ok_or("no text")?;
    let count = count_at(parts, 1)?;
    if parts.len() == 2 {
        push_times(out, text_at(parts, 0)?.as_slice(), count)?;
    } else {
        push_numbered(out, text_at(parts, 0)?, count, text_at(parts, 2)?)?;
    }
    Ok(())
}

/// Adds the piece at a place, if there is one.
fn push_at(out: &mut Text, pieces: &Values, at: usize) -> Result<(), Fail> {
    match pieces.get(at) {
        Some(piece) => push_piece(out, piece),
        None => Ok(()),
    }
}

/// Adds the pieces of a frame, with others in its gaps and behind it.
fn push_framed(out: &mut Text, frame: &Values, pieces: &Values) -> Result<(), Fail> {
    for at in 0..frame.len().max(pieces.len()) {
        push_at(out, frame, at)?;
        push_at(out, pieces, at)?;
    }
    Ok(())
}

/// The pieces of a frame, with others in its gaps and behind it.
pub(crate) fn framed(frame: &Values, pieces: &Values) -> Result<Text, Fail> {
    let mut out = Text::new(frame.allocator());
    push_framed(&mut out, frame, pieces)?;
    Ok(out)
}
