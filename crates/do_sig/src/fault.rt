ghost use Rattle.std.specs.Prelude.{◌≡◌};
ghost use Rattle.do_sig.specs.Answers.{fault_of_kind, fault_of, IsWithin};
ghost use Rattle.do_sig.specs.declared.fault.Stop.TheVariants.{Memory};

use std::alloc::{AllocError, AllocFailed};
use std::error::Error;
use std::fmt;

/// Why bytes are no encoding, with the place of the first byte with which none goes on.
#[derive(Clone, Copy, Debug, PartialEq, Eq)]
pub enum EncFault {
    /// Nothing goes on with this byte.
    BadChar(usize),
    /// The bytes end before the encoding does.
    Ends,
    /// A type that runtimes know and this profile has not, or not at this place.
    Unsupported(usize),
    /// The ninth type that is open.
    Deep(usize),
    /// The second type of a signature is no bare `@`, or the third no bare `:`.
    NoSelf(usize),
    /// The ninth argument.
    TooManyArgs(usize),
    /// Memory ran out.
    Memory,
}

impl fmt::Display for EncFault {
    fn fmt<W: fmt::Write>(&self, f: &mut fmt::Formatter<W>) -> fmt::Result {
        match self {
            EncFault::BadChar(place) => write!(f, "nothing goes on with the byte at {place}"),
            EncFault::Ends => write!(f, "the encoding ends too early"),
            EncFault::Unsupported(place) => write!(f, "the type at {place} is not supported here"),
            EncFault::Deep(place) => write!(f, "more than eight types are open at {place}"),
            EncFault::NoSelf(place) => write!(f, "no bare `@` and `:` stand at {place}"),
            EncFault::TooManyArgs(place) => write!(f, "a ninth argument begins at {place}"),
            EncFault::Memory => write!(f, "memory ran out"),
        }
    }
}

impl Error for EncFault {}

/// What is wrong with a byte.
#[derive(Clone, Copy)]
pub(crate) enum Kind {
    Unsupported,
    Deep,
    NoSelf,
    TooManyArgs,
    BadChar,
}

/// Why reading stopped.
#[derive(Drop)]
pub(crate) enum Stop {
    Memory,
    /// The bytes end before the spelling does.
    Short,
    /// What is wrong with a byte, and how many bytes are left from it on.
    Bad(Kind, usize),
}

impl From<AllocError> for Stop {
    ghost from_gives = { λ _ e. e ≡ Memory };

    fn from(_e: AllocError) -> Stop {
        Stop::Memory
    }
}

impl<T: Drop> From<AllocFailed<T>> for Stop {
    ghost from_gives = { λ _ e. e ≡ Memory };

    fn from(_e: AllocFailed<T>) -> Stop {
        Stop::Memory
    }
}

/// The fault of a kind at a place.
fn fault_at(kind: Kind, place: usize) -> EncFault
    ensures { result ≡ fault_of_kind kind place }
{
    match kind {
        Kind::Unsupported => EncFault::Unsupported(place),
        Kind::Deep => EncFault::Deep(place),
        Kind::NoSelf => EncFault::NoSelf(place),
        Kind::TooManyArgs => EncFault::TooManyArgs(place),
        Kind::BadChar => EncFault::BadChar(place),
    }
}

impl Stop {
    /// The fault, with its place in bytes of a length.
    pub(crate) fn fault(self, len: usize) -> EncFault
        requires { IsWithin self len }
        ensures { result ≡ fault_of self len }
    {
        match self {
            Stop::Memory => EncFault::Memory,
            Stop::Short => EncFault::Ends,
            Stop::Bad(kind, left) => fault_at(kind, len - left),
        }
    }
}
