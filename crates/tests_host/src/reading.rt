//! Inputs that fail.

use crate::faulty::Faulty;
use do_base::{FetchFail, Text};
use do_host::read_within;
use std::alloc::{AllocError, Global};
use std::io::ErrorKind;

/// What comes of reading three bytes of an input that answers an error twice.
fn read(alloc: Global, kind: ErrorKind) -> Result<Result<Text, FetchFail>, AllocError> {
    let input = Faulty::new(kind, Text::from_slice(alloc, b"abc")?);
    Ok(read_within(input, alloc, 3))
}

/// Whether all is read in spite of an error.
fn reads_all(alloc: Global, kind: ErrorKind) -> Result<bool, AllocError> {
    match read(alloc, kind)? {
        Ok(text) => Ok(text.is(b"abc")),
        Err(_) => Ok(false),
    }
}

/// Whether an error ends a read, for this reason.
fn fails(alloc: Global, kind: ErrorKind, reason: FetchFail) -> Result<bool, AllocError> {
    match read(alloc, kind)? {
        Ok(_) => Ok(false),
        Err(fail) => Ok(fail == reason),
    }
}

/// Whether a read is tried again after a signal, and fails at any other error.
pub(crate) fn reads_again_after_a_signal(alloc: Global) -> Result<bool, AllocError> {
    let again = reads_all(alloc, ErrorKind::Interrupted)?;
    let closed = fails(alloc, ErrorKind::BrokenPipe, FetchFail::Failed)?;
    let memory = fails(alloc, ErrorKind::OutOfMemory, FetchFail::Memory)?;
    Ok(again && closed && memory)
}
