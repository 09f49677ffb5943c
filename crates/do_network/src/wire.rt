//! What one node sent to another.
use do_base::{NodeId, Text};

/// What one node sent to another at once: the greeting of a stream or one frame, as bytes.
#[derive(Debug, PartialEq, Eq, Drop)]
pub struct Wire {
    /// The node that sent it.
    pub from: NodeId,
    /// The node that it was sent to.
    pub to: NodeId,
    /// The bytes that were sent, never none.
    pub bytes: Text,
}
