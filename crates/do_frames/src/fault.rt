//! Why frames could not be read.
ghost use Rattle.std.specs.Prelude.{◌≡◌};

use std::alloc::AllocError;
use std::error::Error;
use std::fmt;

/// Why a frame's payload could not be read.
#[derive(Clone, Copy, Debug, PartialEq, Eq)]
pub enum RawFault {
    /// The byte at this place of the payload, from 0, is the first with which no payload of the
    /// kind goes on; it is the payload's length where the payload ends too early, and 0 where no
    /// frame has the kind.
    BadFrame(usize),
    /// Memory ran out.
    Memory,
}

impl fmt::Display for RawFault {
    fn fmt<W: fmt::Write>(&self, f: &mut fmt::Formatter<W>) -> fmt::Result {
        match self {
            RawFault::BadFrame(place) => write!(f, "no payload goes on at {place}"),
            RawFault::Memory => write!(f, "out of memory"),
        }
    }
}

impl Error for RawFault {}

/// Why no frame comes from a stream, by a place in the whole stream, from 0.
#[derive(Clone, Copy, Debug, PartialEq, Eq)]
pub enum StreamFault {
    /// The kind at this place is none that may stand there.
    BadKind(u64),
    /// The length that begins at this place is none that may stand there.
    BadLength(u64),
    /// The stream begins as one of this version, which is not 2.
    BadVersion(u64),
    /// Memory ran out.
    Memory,
}

impl fmt::Display for StreamFault {
    fn fmt<W: fmt::Write>(&self, f: &mut fmt::Formatter<W>) -> fmt::Result {
        match self {
            StreamFault::BadKind(place) => write!(f, "no frame has the kind at {place}"),
            StreamFault::BadLength(place) => write!(f, "no frame has the length at {place}"),
            StreamFault::BadVersion(version) => write!(f, "the stream is of version {version}"),
            StreamFault::Memory => write!(f, "out of memory"),
        }
    }
}

impl Error for StreamFault {}

impl From<AllocError> for StreamFault {
    ghost use Rattle.do_frames.specs.declared.fault.StreamFault.TheVariants.{Memory};

    ghost from_gives = { λ _ e. e ≡ Memory };

    fn from(_e: AllocError) -> StreamFault {
        StreamFault::Memory
    }
}
