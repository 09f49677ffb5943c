//! Where files are read from.
ghost use Rattle.std.specs.{Prelude.{◌≡◌, ◌<◌, ◌≤◌, ◌^◌, ℕ, List}, declared.option.Option.Option};

use crate::lists::items::Items;
use crate::values::text::{Text, Word};
use std::alloc::AllocError;
use std::error::Error;
use std::fmt;

/// A file and its name, each any bytes. The form is this project's own.
#[derive(Clone, Debug, PartialEq, Eq, Drop)]
pub struct NamedFile {
    /// What a fetch asks for.
    pub name: Word,
    /// The whole content.
    pub bytes: Text,
}

/// A list of files, of which the first of a name counts.
///
/// The list keeps no limit on the files or on their bytes. The form is this project's own.
pub type FileList = Items<NamedFile>;

/// Why a fetch gave no file. The form is this project's own.
#[derive(Clone, Copy, Debug, PartialEq, Eq)]
pub enum FetchFail {
    /// There is no such file, or it could not be read.
    Failed,
    /// The file has more bytes than the limit. `read` is one more than `limit`.
    Long { read: u64, limit: u64 },
    /// Memory ran out.
    Memory,
}

impl fmt::Display for FetchFail {
    fn fmt<W: fmt::Write>(&self, f: &mut fmt::Formatter<W>) -> fmt::Result {
        match *self {
            FetchFail::Failed => write!(f, "the file could not be read"),
            FetchFail::Long { limit, .. } => write!(f, "the file is longer than {limit} bytes"),
            FetchFail::Memory => write!(f, "memory ran out"),
        }
    }
}

impl Error for FetchFail {}

impl From<AllocError> for FetchFail {
    ghost use Rattle.do_base.specs.declared.outside.shelf.FetchFail.TheVariants.{Memory};

    ghost from_gives = { λ _ e. e ≡ Memory };

    fn from(_e: AllocError) -> FetchFail {
        FetchFail::Memory
    }
}

/// A shelf of files, from which a program reads.
///
/// Its ghost members are its files, if it tells them, and a count of its faults, which ends at
/// 2^64 - 1 and counts as risen there. The form is this project's own.
pub trait Shelf {
    ghost use Rattle.do_base.specs.declared.outside.shelf.NamedFile.{NamedFile};
    ghost use Rattle.do_base.specs.outside.Files.{FetchCause};

    ghost files: { Self → Option (List NamedFile) };

    ghost faults: { Self → ℕ };

    /// Gives the whole file of that name, of at most `limit` bytes.
    ///
    /// Every answer of a fetch has a proved reason. `Failed`: the count of faults rose, or the
    /// shelf tells its files and none has the name. `Long`: it carries the limit and one more.
    /// `Memory`: memory ran out.
    fn fetch(&mut self, name: &Word, limit: u64) -> Result<Text, FetchFail>
        requires { limit < 2 ^ 63 }
        ensures cause { FetchCause (files self.old) (faults self.old)
            (faults self.new) name.now limit result }
        ensures same { files self.new ≡ files self.old }
        ensures later { faults self.old ≤ faults self.new };
}
