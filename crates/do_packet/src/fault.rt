use std::alloc::AllocError;
use std::error::Error;
use std::fmt;

/// Why values were not packed.
#[derive(Debug, PartialEq, Eq, Drop)]
pub enum PackFault {
    /// A message has at most 4,096 copies and weighs at most 2,097,152: how much there is, and the
    /// limit. Copies are counted up to the first that is too many, and a weight up to 2^64 - 1.
    TooLarge { count: u64, limit: u64 },
    /// Memory ran out.
    Memory,
}

impl fmt::Display for PackFault {
    fn fmt<W: fmt::Write>(&self, f: &mut fmt::Formatter<W>) -> fmt::Result {
        match self {
            PackFault::TooLarge { count, limit } => {
                write!(f, "too large a message: {count}, and at most {limit}")
            }
            PackFault::Memory => write!(f, "out of memory"),
        }
    }
}

impl Error for PackFault {}

impl From<AllocError> for PackFault {
    ghost use Rattle.std.specs.Prelude.{◌≡◌};
    ghost use Rattle.do_packet.specs.declared.fault.PackFault.TheVariants.{Memory};

    ghost from_gives = { λ x y. y ≡ Memory };

    fn from(_: AllocError) -> PackFault {
        PackFault::Memory
    }
}
