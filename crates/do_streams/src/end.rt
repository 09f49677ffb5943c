ghost use Rattle.std.specs.Prelude.{◌≡◌, ◌≤◌, [], IfOk, OnErr, OnOk, false, length, true};
ghost use Rattle.do_frames.specs.{Frames.{after_frame, frame_spelling}, Streams.hello};

use crate::names::Names;
use do_base::{NodeId, Text};
use do_coder::Recent;
use do_frames::{Frame, write_within};
use std::alloc::{AllocError, Global};

/// What a stream begins with.
const GREETING: [u8; 6] = [13, 0, 0, 0, 1, 2];

/// The two streams between a site and a peer.
#[derive(Drop)]
pub struct End {
    /// The peer.
    pub peer: NodeId,
    /// The names that the frames named lately that were fetched.
    pub sent: Recent,
    /// The names that the peer's frames named lately.
    pub read: Names,
    /// Whether the greeting was fetched.
    pub greeted: bool,
}

/// A frame that waits to be spelled.
#[derive(Drop)]
pub struct Outgoing {
    /// The peer that it goes to.
    pub to: NodeId,
    /// The frame.
    pub frame: Frame,
}

/// The greeting, as bytes.
pub fn greeting(alloc: Global) -> Result<Text, AllocError>
    ensures { IfOk result (λ text. text ≡ hello) }
{
    Text::from_slice(alloc, &GREETING)
}

impl End {
    /// The end of a peer, before anything was sent or read.
    pub fn new(alloc: Global, peer: NodeId) -> End
        ensures { result ≡ record { peer = peer; sent = []; read = []; greeted = false } }
    {
        End {
            peer,
            sent: Recent::new(alloc),
            read: Names::new(alloc),
            greeted: false,
        }
    }

    /// The greeting was fetched.
    pub(crate) fn greet(&mut self)
        ensures { self.new ≡ record self.old { greeted = true } }
    {
        self.greeted = true;
    }

    /// Hands out the table of the names that the peer's frames named lately. The end is unchanged.
    pub(crate) fn hand_out_names(&mut self) -> Result<Recent, AllocError>
        ensures names { IfOk result (λ names. names ≡ self.old.read) }
        ensures same { self.new ≡ self.old }
    {
        self.read.hand_out()
    }

    /// The names that the peer's frames named lately are these.
    pub(crate) fn put_names(&mut self, names: Recent)
        ensures { self.new ≡ record self.old { read = names } }
    {
        self.read.put(names);
    }

    /// Spells a frame by the names that were sent before. If memory runs out, or the payload is
    /// longer than that of a frame may be, the end is unchanged.
    pub fn spell(&mut self, alloc: Global, frame: &Frame) -> Result<Text, AllocError>
        ensures text { IfOk result (λ text. text ≡ frame_spelling self.old.sent frame.now) }
        ensures short { IfOk result (λ text. length text ≤ 2098181) }
        ensures end { OnOk result
            (self.new ≡ record self.old { sent = after_frame self.old.sent frame.now }) }
        ensures err { OnErr result (self.new ≡ self.old) }
    {
        match write_within(alloc, frame, &mut self.sent)? {
            Some(text) => Ok(text),
            None => Err(AllocError),
        }
    }
}
