use do_base::{Items, NodeId, Text, Values};

/// A line of a schedule between its first line and `end`. The form is this project's own.
#[derive(Debug, Drop)]
pub enum Line {
    /// The root of a node is sent a selector with plain values, one for each colon.
    Start {
        node: NodeId,
        selector: Text,
        values: Values,
    },
    /// So many single steps of a node's top invocation, 1 to 1,000.
    Run {
        node: NodeId,
        count: u64,
    },
    /// A node takes the first item that waits from a peer.
    Take {
        node: NodeId,
        from: NodeId,
    },
    /// A node closes its end of the connection to a peer.
    Close {
        node: NodeId,
        peer: NodeId,
    },
    /// What `from` sent to `to` is lost behind the first `after` items. No node makes this step.
    Lose {
        from: NodeId,
        to: NodeId,
        after: u64,
    },
    /// The top invocation of a node waits no longer for its call. In no schedule of version 1.
    Timeout {
        node: NodeId,
    },
    /// The stored objects, entries and closed ends of every node are shown.
    Check,
}

/// The lines of a schedule between its first line and `end`, in order.
///
/// The list itself keeps no limit; those of a schedule have 1,000,000 single steps at most. The
/// form is this project's own.
pub type Lines = Items<Line>;
