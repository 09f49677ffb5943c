//! Where a node hears its peers, and sends to them.
ghost use Rattle.std.specs.Prelude.{◌≡◌, ◌≤◌, ℕ, List, [], ◌∷◌, length, IsErrOf};
ghost use Rattle.std.specs.declared.option.Option.{Option};
ghost use Rattle.do_base.specs.outside.Causes.{Rose};
ghost use Rattle.do_output.specs.Told.{TellsMore};
ghost use Rattle.do_link.specs.Told.{IsWithin, Listened, Came, called, handed, came};

use do_base::NodeId;
use std::alloc::{AllocError, AllocFailed};
use std::error::Error;
use std::fmt;

/// Why a link did not listen or send.
#[derive(Clone, Copy, Debug, PartialEq, Eq)]
pub enum LinkFail {
    /// The link could not do it.
    Failed,
    /// Memory ran out.
    Memory,
}

impl fmt::Display for LinkFail {
    fn fmt<W: fmt::Write>(&self, f: &mut fmt::Formatter<W>) -> fmt::Result {
        match *self {
            LinkFail::Failed => write!(f, "the link failed"),
            LinkFail::Memory => write!(f, "memory ran out"),
        }
    }
}

impl Error for LinkFail {}

impl From<AllocError> for LinkFail {
    ghost use Rattle.do_link.specs.declared.link.LinkFail.TheVariants.{Memory};

    ghost from_gives = { λ _ e. e ≡ Memory };

    fn from(_e: AllocError) -> LinkFail {
        LinkFail::Memory
    }
}

impl<T: Drop> From<AllocFailed<T>> for LinkFail {
    ghost use Rattle.do_link.specs.declared.link.LinkFail.TheVariants.{Memory};

    ghost from_gives = { λ _ e. e ≡ Memory };

    fn from(_e: AllocFailed<T>) -> LinkFail {
        LinkFail::Memory
    }
}

/// What a poll of a link found.
#[derive(Clone, Copy, Debug, PartialEq, Eq)]
pub enum LinkEvent {
    /// Bytes came from a peer: how many of them stand in the buffer.
    Bytes(NodeId, usize),
    /// A peer sends nothing more.
    Ended(NodeId),
    /// Nothing came.
    Quiet,
}

/// How a node hears its peers, and sends to them.
///
/// Its ghost members are the list that it tells, if it tells one, a count of its faults, and a
/// count of its polls that found nothing. A count ends at 2^64 - 1 and counts as risen there. The
/// list has each listen and each send with its arguments and whether it failed, and each event that
/// was given, in order; a call in which memory ran out is not in it. A link may stop telling.
pub trait Link {
    ghost use Rattle.do_link.specs.{Told.Told, declared.link.LinkEvent.TheVariants.Quiet};
    ghost use Rattle.do_link.specs.declared.link.LinkFail.TheVariants.{Failed};

    ghost told: { Self → Option (List Told) };

    ghost faults: { Self → ℕ };

    ghost quiets: { Self → ℕ };

    /// Listens on a port, for these peers.
    ///
    /// `Failed` comes only where the count of faults rose. A call in which memory ran out is not
    /// told.
    fn listen(&mut self, port: NodeId, peers: &[NodeId]) -> Result<(), LinkFail>
        ensures told { TellsMore (told self.old) (told self.new)
            (called (Listened port peers.now) result) }
        ensures later { faults self.old ≤ faults self.new }
        ensures failed { IsErrOf result Failed → Rose (faults self.old) (faults self.new) };

    /// What comes next. It answers within a bounded time, whatever the peers do.
    ///
    /// The buffer has room for 4,096 bytes at least. Bytes that came stand at its front, one at
    /// least. `Quiet` comes only where the count of empty polls rose.
    fn next(&mut self, buf: &mut [u8]) -> LinkEvent
        requires { 4096 ≤ length buf.old }
        ensures room { length buf.new ≡ length buf.old }
        ensures within { IsWithin (length buf.old) result }
        ensures told { TellsMore (told self.old) (told self.new)
            (Came (came result buf.new) ∷ []) }
        ensures later { faults self.old ≤ faults self.new }
        ensures polled { quiets self.old ≤ quiets self.new }
        ensures quiet { result ≡ Quiet → Rose (quiets self.old) (quiets self.new) };

    /// Sends all of the bytes to a peer, or fails.
    ///
    /// `Failed` comes only where the count of faults rose; some of the bytes may then have gone. A
    /// call in which memory ran out is not told.
    fn send(&mut self, to: NodeId, bytes: &[u8]) -> Result<(), LinkFail>
        ensures told { TellsMore (told self.old) (told self.new)
            (called (handed to bytes.now) result) }
        ensures later { faults self.old ≤ faults self.new }
        ensures failed { IsErrOf result Failed → Rose (faults self.old) (faults self.new) };
}
