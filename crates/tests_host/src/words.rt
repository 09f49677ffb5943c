//! The words of a command line.

use do_host::read_words;
use std::alloc::{AllocError, Global};
use std::env::{Env, FillError};

/// A command line of three words, the program's name among them.
struct Line;

impl Env for Line {
    fn arg(&self, i: usize, buf: &mut [u8]) -> Result<usize, FillError> {
        let word: &[u8] = match i {
            0 => b"program",
            1 => b"replay",
            2 => b"f\xff",
            _ => return Err(FillError::NotPresent),
        };
        if buf.len() < word.len() {
            return Err(FillError::TooLong);
        }
        buf[..word.len()].copy_from_slice(word);
        Ok(word.len())
    }

    fn var(&self, _name: &str, _buf: &mut [u8]) -> Result<usize, FillError> {
        Err(FillError::NotPresent)
    }

    fn var_at(&self, _i: usize, _buf: &mut [u8]) -> Result<usize, FillError> {
        Err(FillError::NotPresent)
    }
}

/// Whether the two words behind the program's name are read, byte by byte.
pub(crate) fn reads_words_as_bytes(alloc: Global) -> Result<bool, AllocError> {
    let words = read_words(alloc, &Line)?;
    match words.as_slice() {
        [first, second] => Ok(first.is(b"replay") && second.is(b"f\xff")),
        _ => Ok(false),
    }
}
