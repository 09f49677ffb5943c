//! The steps of a schedule.
use crate::lists::exact::ExactClone;
use crate::names::node::NodeId;
use crate::values::text::Text;
use crate::values::value::Values;

/// A step of a schedule.
///
/// Each but `Check` is enabled in some states only, and changes nothing in the others. The form is
/// this project's own.
#[derive(Clone, Debug, PartialEq, Eq, Drop)]
pub enum Event {
    /// The root of a node is sent a selector with plain values, one for each argument.
    Start {
        node: NodeId,
        selector: Text,
        values: Values,
    },
    /// The top invocation of a node does one act.
    Run {
        node: NodeId,
    },
    /// A node takes the oldest item that waits from another.
    Take {
        node: NodeId,
        from: NodeId,
    },
    /// A node closes its end of the connection to a peer.
    Close {
        node: NodeId,
        peer: NodeId,
    },
    /// What `from` sent to `to` is lost behind the first `after` items, and the connection ends
    /// there.
    Lose {
        from: NodeId,
        to: NodeId,
        after: u64,
    },
    /// The top invocation of a node waits no longer for its call.
    Timeout {
        node: NodeId,
    },
    /// The whole state is shown, and nothing changes.
    Check,
}

impl ExactClone for Event {
    ghost use Rattle.std.proofs.Common.{rules};

    ghost exact_clone = { λ x y h. Prim.search rules };
}
