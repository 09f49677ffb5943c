//! Where output is written to.
ghost use Rattle.std.specs.Prelude.{◌≡◌, ◌<◌, ◌≤◌, ℕ, List, length, take, IfOk, OnOk, OnErr};
ghost use Rattle.std.specs.{Prelude.IsErrOf, declared.option.Option.Option};
ghost use Rattle.do_base.specs.outside.{Causes.Rose, Bytes.{with_more, HasWritten}};

use crate::lists::items::Items;
use std::alloc::AllocError;
use std::error::Error;
use std::fmt;

/// Why a put wrote nothing. The form is this project's own.
#[derive(Clone, Copy, Debug, PartialEq, Eq)]
pub enum PutFail {
    /// The bytes could not be written.
    Failed,
    /// Memory ran out.
    Memory,
}

impl fmt::Display for PutFail {
    fn fmt<W: fmt::Write>(&self, f: &mut fmt::Formatter<W>) -> fmt::Result {
        match *self {
            PutFail::Failed => write!(f, "the output could not be written"),
            PutFail::Memory => write!(f, "memory ran out"),
        }
    }
}

impl Error for PutFail {}

impl From<AllocError> for PutFail {
    ghost use Rattle.do_base.specs.declared.outside.sink.PutFail.TheVariants.{Memory};

    ghost from_gives = { λ _ e. e ≡ Memory };

    fn from(_e: AllocError) -> PutFail {
        PutFail::Memory
    }
}

/// Which calls are to fail, by their numbers, in any order: the first call is 1.
///
/// The list keeps no limit, and a number may stand twice. The form is this project's own.
pub type CallList = Items<u64>;

/// What bytes are written to.
///
/// Its ghost members are the bytes that were written so far, if it tells them, and a count of
/// its faults, which ends at 2^64 - 1 and counts as risen there. The form is this project's own.
pub trait Sink {
    ghost written: { Self → Option (List ℕ) };

    ghost faults: { Self → ℕ };

    /// Writes bytes from the front of a piece that is not empty, and tells how many, one at least.
    ///
    /// After an error it has written none of them. `Failed` comes only where the count of faults
    /// rose.
    fn put(&mut self, piece: &[u8]) -> Result<usize, PutFail>
        requires { 0 < length piece.now }
        ensures count { IfOk result (λ n. (0 < n) × (n ≤ length piece.now)) }
        ensures ok { IfOk result
            (λ n. written self.new ≡ with_more (written self.old) (take n piece.now)) }
        ensures err { OnErr result (written self.new ≡ written self.old) }
        ensures later { faults self.old ≤ faults self.new }
        ensures failed { IsErrOf result PutFail.Failed → Rose (faults self.old) (faults self.new) };
}

/// Writes all of the bytes, in as many pieces as the sink likes.
///
/// It writes everything, or on any error a prefix. `Failed` comes only if the sink's count of
/// faults rose. For no bytes the sink is not called. There is no limit on how many bytes there are.
/// The form is this project's own.
pub fn write_all<K: Sink>(out: &mut K, bytes: &[u8]) -> Result<(), PutFail>
    ensures ok { OnOk result (K.written out.new ≡ with_more (K.written out.old) bytes.now) }
    ensures prefix { HasWritten (K.written out.old) (K.written out.new) bytes.now }
    ensures later { K.faults out.old ≤ K.faults out.new }
    ensures failed { IsErrOf result PutFail.Failed → Rose (K.faults out.old) (K.faults out.new) }
{
    let mut done = 0;
    while done < bytes.len() {
        let count = out.put(&bytes[done..])?;
        done += count;
    }
    Ok(())
}
