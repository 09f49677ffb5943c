//! What comes over a link, and what is sent.
use do_base::{Items, NodeId, Text};

/// What a poll of a link came to.
#[derive(Debug, PartialEq, Eq, Drop)]
pub enum ScriptEvent {
    /// These bytes came from a peer.
    Bytes(NodeId, Text),
    /// A peer sends nothing more.
    Ended(NodeId),
    /// Nothing came.
    Quiet,
}

/// What a link in memory gives, in order.
///
/// The list keeps no limit on how much there is.
pub type ScriptList = Items<ScriptEvent>;

/// A send to a peer, and whether it failed.
#[derive(Debug, PartialEq, Eq, Drop)]
pub struct Sent {
    /// The peer.
    pub to: NodeId,
    /// What was to be sent.
    pub bytes: Text,
    /// Whether the send failed.
    pub failed: bool,
}

/// The sends of a link, in order.
pub type SentList = Items<Sent>;
