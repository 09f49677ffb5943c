use std::alloc::AllocError;
use std::error::Error;
use std::fmt;

/// Why words ask for no command.
#[derive(Clone, Copy, Debug, PartialEq, Eq)]
pub enum WordFault {
    /// No form goes on with this word, counted from 1. Where words are missing it is the one behind
    /// the last.
    Usage(usize),
    /// Memory ran out, which says nothing of the words.
    Memory,
}

impl fmt::Display for WordFault {
    fn fmt<W: fmt::Write>(&self, f: &mut fmt::Formatter<W>) -> fmt::Result {
        match self {
            WordFault::Usage(word) => write!(f, "no form goes on at word {word}"),
            WordFault::Memory => write!(f, "memory ran out"),
        }
    }
}

impl Error for WordFault {}

impl From<AllocError> for WordFault {
    ghost use Rattle.std.specs.Prelude.{◌≡◌};
    ghost use Rattle.do_cli.specs.declared.fault.WordFault.TheVariants.{Memory};

    ghost from_gives = { λ _ e. e ≡ Memory };

    fn from(_e: AllocError) -> WordFault {
        WordFault::Memory
    }
}
