//! Why bytes could not be read.

ghost use Rattle.std.specs.Prelude.{◌≡◌};
ghost use Rattle.do_grammar.specs.declared.fault.ReadFault.TheVariants.{Memory};

use std::alloc::{AllocError, AllocFailed};
use std::error::Error;
use std::fmt;

/// Why reading stopped, by how many bytes are left, so that it is the same for a reader that is
/// part
/// of another.
#[derive(Debug, Drop)]
pub enum ReadFault {
    /// No memory was left for what was read.
    Memory,
    /// The bytes end before the spelling does.
    Short,
    /// No spelling goes on with the byte from which on this many are left.
    Bad(usize),
}

impl fmt::Display for ReadFault {
    fn fmt<W: fmt::Write>(&self, f: &mut fmt::Formatter<W>) -> fmt::Result {
        match self {
            ReadFault::Memory => write!(f, "out of memory"),
            ReadFault::Short => write!(f, "the bytes end too early"),
            ReadFault::Bad(left) => write!(f, "no spelling goes on {left} bytes before the end"),
        }
    }
}

impl Error for ReadFault {}

impl From<AllocError> for ReadFault {
    ghost from_gives = { λ _ e. e ≡ Memory };

    fn from(_e: AllocError) -> ReadFault {
        ReadFault::Memory
    }
}

impl<T: Drop> From<AllocFailed<T>> for ReadFault {
    ghost from_gives = { λ _ e. e ≡ Memory };

    fn from(_e: AllocFailed<T>) -> ReadFault {
        ReadFault::Memory
    }
}

/// Why bytes are no spelling, by a place in them, from 0.
#[derive(Debug, Drop)]
pub enum CodeFault {
    /// The byte at this place is the first with which no spelling goes on.
    Bad(usize),
    /// The bytes are a proper front of a spelling.
    Short,
    /// No memory was left for what was read.
    Memory,
}

impl fmt::Display for CodeFault {
    fn fmt<W: fmt::Write>(&self, f: &mut fmt::Formatter<W>) -> fmt::Result {
        match self {
            CodeFault::Bad(place) => write!(f, "no spelling goes on with the byte at {place}"),
            CodeFault::Short => write!(f, "the bytes end too early"),
            CodeFault::Memory => write!(f, "out of memory"),
        }
    }
}

impl Error for CodeFault {}
