use do_base::Text;
use do_script::AsmFault;
use do_sig::EncFault;
use std::alloc::{AllocError, AllocFailed};
use std::error::Error;
use std::fmt;

/// Why a text is no world's.
///
/// A text with several faults is refused with the first, in the order of docs/FORMATS.md. What
/// stands in a fault is its path, as `class[0].method[1].types`, and no fault within a fault is of
/// memory. The form of worlds is this project's own.
#[derive(Debug, Drop)]
pub enum WorldFault {
    /// The bytes are no TOML 1.1, or no UTF-8.
    Toml,
    /// What must stand at this path does not.
    Missing(Text),
    /// What stands at this path is of a wrong type, form or number, is there already, or has no
    /// place there.
    Wrong(Text),
    /// The types at this path spell no signature.
    Sig(Text, EncFault),
    /// The text at this path is no code.
    Asm(Text, AsmFault),
    /// Memory ran out, which says nothing of the text.
    Memory,
}

/// Writes a path, of which a key may be any text.
fn write_path<W: fmt::Write>(f: &mut fmt::Formatter<W>, path: &Text) -> fmt::Result {
    match std::str::from_utf8(path.as_slice()) {
        Ok(path) => f.write_str(path),
        Err(_) => f.write_str("a key"),
    }
}

impl fmt::Display for WorldFault {
    fn fmt<W: fmt::Write>(&self, f: &mut fmt::Formatter<W>) -> fmt::Result {
        match self {
            WorldFault::Toml => write!(f, "the text is no TOML"),
            WorldFault::Missing(path) => {
                write_path(f, path)?;
                write!(f, " is missing")
            }
            WorldFault::Wrong(path) => {
                write_path(f, path)?;
                write!(f, " is wrong")
            }
            WorldFault::Sig(path, fault) => {
                write_path(f, path)?;
                write!(f, " spells no signature: {fault}")
            }
            WorldFault::Asm(path, fault) => {
                write_path(f, path)?;
                write!(f, " is no code: {fault}")
            }
            WorldFault::Memory => write!(f, "memory ran out"),
        }
    }
}

impl Error for WorldFault {}

impl From<AllocError> for WorldFault {
    ghost use Rattle.std.specs.Prelude.{◌≡◌};
    ghost use Rattle.do_document.specs.declared.fault.WorldFault.TheVariants.{Memory};

    ghost from_gives = { λ _ e. e ≡ Memory };

    fn from(_e: AllocError) -> WorldFault {
        WorldFault::Memory
    }
}

impl<T: Drop> From<AllocFailed<T>> for WorldFault {
    ghost use Rattle.std.specs.Prelude.{◌≡◌};
    ghost use Rattle.do_document.specs.declared.fault.WorldFault.TheVariants.{Memory};

    ghost from_gives = { λ _ e. e ≡ Memory };

    fn from(_e: AllocFailed<T>) -> WorldFault {
        WorldFault::Memory
    }
}
