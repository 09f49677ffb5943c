//! Which nodes a plan starts.
use do_base::{Items, NodeId, Word};

/// A line of a plan between the first line and `end`: a node that is started as a child.
#[derive(Debug, Drop)]
pub struct PlanLine {
    /// The node's port.
    pub port: NodeId,
    /// The word of its world: a built-in one, or the name of a file.
    pub world: Word,
    /// The name of the file of its starts.
    pub starts: Word,
    /// The most turns that it serves, 1 to 2^40.
    pub turns: u64,
}

/// The lines of a plan between the first line and `end`, in order.
///
/// The list itself keeps no limit; those of a plan are 1 to 64.
pub type Plan = Items<PlanLine>;
