//! An input and an output that fail twice.

use do_base::Text;
use std::io;
use std::io::{ErrorKind, Read, Write};

/// An input and an output that answer an error twice: a write at first, a read behind the first
/// byte. After that a write takes all, and a read gives one byte.
#[derive(Drop)]
pub(crate) struct Faulty {
    kind: ErrorKind,
    times: u32,
    bytes: Text,
    at: usize,
}

impl Faulty {
    /// It answers this error, and has these bytes.
    pub(crate) fn new(kind: ErrorKind, bytes: Text) -> Faulty {
        Faulty {
            kind,
            times: 2,
            bytes,
            at: 0,
        }
    }

    /// The bytes that it was given.
    pub(crate) fn bytes(&self) -> &Text {
        &self.bytes
    }

    fn fails(&mut self) -> io::Result<()> {
        if self.times == 0 {
            return Ok(());
        }
        self.times -= 1;
        Err(io::Error::from(self.kind))
    }
}

impl Write for Faulty {
    fn write(&mut self, buf: &[u8]) -> io::Result<usize> {
        self.fails()?;
        self.bytes.push_bytes(buf)?;
        Ok(buf.len())
    }

    fn flush(&mut self) -> io::Result<()> {
        Ok(())
    }
}

impl Read for Faulty {
    fn read(&mut self, buf: &mut [u8]) -> io::Result<usize> {
        if self.at > 0 {
            self.fails()?;
        }
        match (self.bytes.as_slice().get(self.at), buf.first_mut()) {
            (Some(byte), Some(place)) => {
                *place = *byte;
                self.at = self.at.saturating_add(1);
                Ok(1)
            }
            _ => Ok(0),
        }
    }
}
