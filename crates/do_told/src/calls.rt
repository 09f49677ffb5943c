//! The calls of a link.
ghost use Rattle.std.specs.{Prelude.{◌≡◌, ◌++◌, ◌∷◌, [], List}, Borrow.ftrue, Coded.coded_list};
ghost use Rattle.do_link.specs.Told.{Told};
ghost use Rattle.do_told.specs.Calls.{told_code, told_of};

use do_base::NodeId;
use do_link::LinkEvent;
use std::marker::Model;

/// The calls of a link so far, and the events that it gave. They are there in proofs alone.
///
/// Nothing but the clauses of this type relates them to memory, and so they bind what is generic
/// over a link: it can tell no call that was not made of it.
#[derive(Drop)]
pub struct Calls {
    pub ghost list: { List Told } by { coded_list told_code },
}

impl Model for Calls {
    ghost also_owns = { λ _. ftrue };
}

/// A call of a link and what it came to.
#[derive(Clone, Copy, Drop)]
pub enum Call<'a> {
    /// A listen on a port, for these peers, and whether it failed.
    Listened(NodeId, &'a [NodeId], bool),
    /// An event that a poll gave, whose bytes stand at the front of its buffer.
    Came(LinkEvent, &'a [u8]),
    /// A send of these bytes to a peer, and whether it failed.
    Sent(NodeId, &'a [u8], bool),
}

impl Calls {
    /// Before the first call.
    pub fn new() -> Calls
        ensures { result.list ≡ [] }
    {
        Calls {}
    }

    /// Once one call more was made.
    pub fn with(&self, _call: &Call<'_>) -> Calls
        ensures { result.list ≡ self.now.list ++ told_of _call.now ∷ [] }
    {
        Calls {}
    }
}
