//! What a step of a site changes.
use do_part::Part;
use do_streams::Streams;

/// What a step of a site changes: what the node has of its own, and what waits to be fetched.
#[derive(Drop)]
pub struct Core {
    /// What the node has of its own.
    pub part: Part,
    /// Its links, and what waits for its peers and to be shown.
    pub streams: Streams,
}
