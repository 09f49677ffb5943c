ghost use Rattle.std.specs.Prelude.{◌≡◌};

use std::alloc::AllocError;
use std::error::Error;
use std::fmt;

/// Why a class was not added.
#[derive(Clone, Copy, Debug, PartialEq, Eq)]
pub enum ClassFault {
    /// A class of this name is in the table.
    NameTaken,
    /// So many slots, which are more than 16.
    TooManySlots(usize),
    /// Memory ran out.
    Memory,
}

impl fmt::Display for ClassFault {
    fn fmt<W: fmt::Write>(&self, f: &mut fmt::Formatter<W>) -> fmt::Result {
        match self {
            ClassFault::NameTaken => write!(f, "a class of this name is in the table"),
            ClassFault::TooManySlots(count) => write!(f, "{count} slots, more than 16"),
            ClassFault::Memory => write!(f, "out of memory"),
        }
    }
}

impl Error for ClassFault {}

impl From<AllocError> for ClassFault {
    ghost use Rattle.do_class.specs.declared.fault.ClassFault.TheVariants.{Memory};

    ghost from_gives = { λ _ e. e ≡ Memory };

    fn from(_e: AllocError) -> ClassFault {
        ClassFault::Memory
    }
}
