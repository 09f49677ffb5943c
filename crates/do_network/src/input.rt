//! What a site is handed, and what it came to.
use crate::fault::PeerFault;
use do_base::{NodeId, Text, Values};
use do_frames::RawFrame;

/// One thing that a site does next, or that comes to it from outside.
///
/// An input that is not enabled, as a frame over a closed end, is skipped and changes nothing.
#[derive(Debug, Drop)]
pub enum Input {
    /// The top invocation does one act.
    Run,
    /// The root is sent a selector with plain values.
    Start {
        /// The selector of a method of the root's class.
        selector: Text,
        /// The values, one for each argument of the method.
        values: Values,
    },
    /// The next frame of a peer is taken.
    Frame(NodeId, RawFrame),
    /// The end towards a peer closes.
    Close(NodeId),
    /// The connection to a peer ended, as if the peer had closed its end.
    Ended(NodeId),
    /// The top invocation waits no longer for the answer to its call.
    Timeout,
}

/// What an input came to.
#[derive(Clone, Copy, Debug, PartialEq, Eq)]
pub enum Done {
    /// It was done.
    Moved,
    /// It was not enabled, and nothing changed.
    Skipped,
    /// The peer may not send this frame, for this reason, and the end towards the peer closed.
    Closed(NodeId, PeerFault),
}
