use std::alloc::AllocError;
use std::error::Error;
use std::fmt;

/// Why the core of a server refuses a call. The core is then as it was.
#[derive(Clone, Copy, Debug, PartialEq, Eq)]
pub enum CoreFault {
    /// As much is kept as may be: this is the limit.
    Full(u64),
    /// Memory ran out.
    Memory,
}

impl fmt::Display for CoreFault {
    fn fmt<W: fmt::Write>(&self, f: &mut fmt::Formatter<W>) -> fmt::Result {
        match self {
            CoreFault::Full(limit) => write!(f, "no room: {limit} is the limit"),
            CoreFault::Memory => write!(f, "out of memory"),
        }
    }
}

impl Error for CoreFault {}

impl From<AllocError> for CoreFault {
    ghost use Rattle.std.specs.Prelude.{◌≡◌};
    ghost use Rattle.do_native_acts.specs.declared.fault.CoreFault.TheVariants.{Memory};

    ghost from_gives = { λ _ e. e ≡ Memory };

    fn from(_error: AllocError) -> CoreFault {
        CoreFault::Memory
    }
}
