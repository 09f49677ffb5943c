//! Names that the text of a method may speak of.

use do_base::{Text, Texts};
use std::alloc::{AllocError, Global};

/// Adds these words.
fn push_names(names: &mut Texts, words: &[&[u8]]) -> Result<(), AllocError> {
    for word in words {
        names.push(Text::from_slice(names.allocator(), word)?)?;
    }
    Ok(())
}

/// These words as a list of names.
pub(crate) fn names(alloc: Global, words: &[&[u8]]) -> Result<Texts, AllocError> {
    let mut names = Texts::new(alloc);
    push_names(&mut names, words)?;
    Ok(names)
}
