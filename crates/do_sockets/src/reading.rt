//! Reads that do not wait.
//!
//! A socket is read only where it was found ready. A read that leaves room in its buffer has
//! taken all that there was, and the system tells each later change once. So a call and its
//! reply cost each end a wait, a read and a write, one call of the system more than a program
//! that blocks in its read. Behind a read that filled its buffer the other sockets are looked
//! at, so a peer that sends without a pause keeps neither peers nor strangers waiting; so they
//! are wherever the peer that was read may have more.
ghost use Rattle.std.specs.Prelude.{◌≡◌, ◌<◌, ◌≤◌, ℕ, length};
ghost use Rattle.do_sockets.specs.declared.reading.Got.TheVariants.{Bytes};

use std::io::{ErrorKind, Read};

/// How often a call begins again after a signal.
const TRIES: u32 = 1_000;

/// What a read that does not wait gave.
#[derive(Clone, Copy)]
pub enum Got {
    /// This number of bytes, one at least.
    Bytes(usize),
    /// The end of the stream.
    Ended,
    /// Nothing so far.
    Nothing,
}

/// What a stream has that came.
pub fn read_some<S: Read>(stream: &mut S, buf: &mut [u8]) -> Got
    ensures room { length buf.new ≡ length buf.old }
    ensures bytes { (n : ℕ) → result ≡ Bytes n → (0 < n) × (n ≤ length buf.new) }
{
    for _ in 0..TRIES {
        match stream.read(buf) {
            Ok(0) => return Got::Ended,
            Ok(count) => return Got::Bytes(count),
            Err(e) if e.kind() == ErrorKind::Interrupted => {}
            Err(e) if e.kind() == ErrorKind::WouldBlock => return Got::Nothing,
            Err(_) => return Got::Ended,
        }
    }
    Got::Nothing
}
