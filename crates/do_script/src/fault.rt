ghost use Rattle.std.specs.Prelude.{◌≡◌, ◌<◌, ◌^◌};
ghost use Rattle.do_script.specs.Assembly.{answer};
ghost use Rattle.do_script.specs.declared.fault.LineFault.TheVariants.{Bad, Memory};
ghost use Rattle.do_script.specs.declared.fault.AsmFault.TheVariants.{Memory as NoMemory};

use std::alloc::{AllocError, AllocFailed};
use std::error::Error;
use std::fmt;

/// What is wrong with a line: no instruction, no local, no place for a label, or one too many.
#[derive(Clone, Copy, Debug, PartialEq, Eq)]
pub(crate) enum Kind {
    Op,
    Local,
    Jump,
    Long,
}

/// Why a line could not be read.
#[derive(Debug, Drop)]
pub(crate) enum LineFault {
    Bad(Kind),
    Memory,
}

impl From<Kind> for LineFault {
    ghost from_gives = { λ k e. e ≡ Bad k };

    fn from(kind: Kind) -> LineFault {
        LineFault::Bad(kind)
    }
}

impl From<AllocError> for LineFault {
    ghost from_gives = { λ _ e. e ≡ Memory };

    fn from(_e: AllocError) -> LineFault {
        LineFault::Memory
    }
}

impl<T: Drop> From<AllocFailed<T>> for LineFault {
    ghost from_gives = { λ _ e. e ≡ Memory };

    fn from(_e: AllocFailed<T>) -> LineFault {
        LineFault::Memory
    }
}

/// Why a text is no code. Lines are counted from 1; those that say nothing count too.
///
/// The first line at fault counts. In a line with several faults `BadOp` goes before `BadLocal`,
/// and this before `BadJump`. The language is this project's own.
#[derive(Clone, Copy, Debug, PartialEq, Eq)]
pub enum AsmFault {
    /// The line is no instruction: its name is none, its operands are of a wrong number or form,
    /// or a slot or class is unknown; or it begins with `@` and is no label.
    BadOp(u64),
    /// Where a local must stand, there is another word.
    BadLocal(u64),
    /// The line names a label that is defined nowhere, or defines one again.
    BadJump(u64),
    /// A line has the 4,097th instruction, and those before it are good.
    TooLong,
    /// Memory ran out, which says nothing of the text.
    Memory,
}

/// The answer to a fault of a line, counted from 0.
pub(crate) fn answer_to(fault: LineFault, line: usize) -> AsmFault
    requires { line < 2 ^ 63 }
    ensures { result ≡ answer fault line }
{
    let number = line as u64 + 1;
    match fault {
        LineFault::Bad(Kind::Op) => AsmFault::BadOp(number),
        LineFault::Bad(Kind::Local) => AsmFault::BadLocal(number),
        LineFault::Bad(Kind::Jump) => AsmFault::BadJump(number),
        LineFault::Bad(Kind::Long) => AsmFault::TooLong,
        LineFault::Memory => AsmFault::Memory,
    }
}

impl fmt::Display for AsmFault {
    fn fmt<W: fmt::Write>(&self, f: &mut fmt::Formatter<W>) -> fmt::Result {
        match self {
            AsmFault::BadOp(line) => write!(f, "line {line} is no instruction"),
            AsmFault::BadLocal(line) => {
                write!(f, "line {line} has another word where a local must stand")
            }
            AsmFault::BadJump(line) => {
                write!(
                    f,
                    "line {line} has a label that is not defined, or defined again"
                )
            }
            AsmFault::TooLong => f.write_str("there are more than 4,096 instructions"),
            AsmFault::Memory => f.write_str("memory ran out"),
        }
    }
}

impl Error for AsmFault {}

impl From<AllocError> for AsmFault {
    ghost from_gives = { λ _ e. e ≡ NoMemory };

    fn from(_e: AllocError) -> AsmFault {
        AsmFault::Memory
    }
}

impl<T: Drop> From<AllocFailed<T>> for AsmFault {
    ghost from_gives = { λ _ e. e ≡ NoMemory };

    fn from(_e: AllocFailed<T>) -> AsmFault {
        AsmFault::Memory
    }
}
