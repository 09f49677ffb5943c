//! Texts in which a piece stands many times.

use do_base::Text;
use std::alloc::{AllocError, Global};

/// Adds a piece so many times.
pub(crate) fn push_times(out: &mut Text, piece: &[u8], count: u16) -> Result<(), AllocError> {
    for _time in 0..count {
        out.push_bytes(piece)?;
    }
    Ok(())
}

/// A first piece, and behind it another one so many times.
pub(crate) fn repeated(
    alloc: Global,
    first: &[u8],
    piece: &[u8],
    count: u16,
) -> Result<Text, AllocError> {
    let mut text = Text::from_slice(alloc, first)?;
    push_times(&mut text, piece, count)?;
    Ok(text)
}
