ghost use Rattle.std.specs.Prelude.{◌≡◌};
ghost use Rattle.do_sched.specs.declared.fault.SchedFault.TheVariants.{Memory};

use std::alloc::{AllocError, AllocFailed};
use std::error::Error;
use std::fmt;

/// Why bytes are no schedule, with the number of the line, counted from 1. The first faulty line
/// counts.
///
/// The form is this project's own.
#[derive(Debug, PartialEq, Eq, Drop)]
pub enum SchedFault {
    /// A line that is not of the kind wanted at its place, that follows `end`, or whose line feed
    /// is missing.
    BadLine(u64),
    /// A good line that is one too many for its form: it brings the single steps of a schedule
    /// above 1,000,000, or the lines of another form above as many as it may have.
    TooMany(u64),
    /// Nothing is wrong but that the bytes stop without `end`. The number is that of the line after
    /// the last.
    NoEnd(u64),
    /// No memory was left for the lines.
    Memory,
}

impl fmt::Display for SchedFault {
    fn fmt<W: fmt::Write>(&self, f: &mut fmt::Formatter<W>) -> fmt::Result {
        match self {
            SchedFault::BadLine(n) => write!(f, "line {n} is none that may stand there"),
            SchedFault::TooMany(n) => write!(f, "line {n} brings more than the form may hold"),
            SchedFault::NoEnd(n) => write!(f, "no `end` at line {n}"),
            SchedFault::Memory => write!(f, "out of memory"),
        }
    }
}

impl Error for SchedFault {}

impl From<AllocError> for SchedFault {
    ghost from_gives = { λ _ e. e ≡ Memory };

    fn from(_e: AllocError) -> SchedFault {
        SchedFault::Memory
    }
}

impl<T: Drop> From<AllocFailed<T>> for SchedFault {
    ghost from_gives = { λ _ e. e ≡ Memory };

    fn from(_e: AllocFailed<T>) -> SchedFault {
        SchedFault::Memory
    }
}
