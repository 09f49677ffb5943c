use do_base::{Exc, NodeId, Shown};
use do_behave::Answer;
use do_class::Packet;

/// Where the answer of an invocation goes once that has ended, with all that it then needs.
#[derive(Drop)]
pub enum Delivery {
    /// It is shown.
    Shows {
        line: Shown,
    },
    /// The invocation below has it.
    Answers {
        answer: Answer,
    },
    /// The peer that waits for it gets a reply.
    Replies {
        peer: NodeId,
        number: u64,
        packet: Packet,
    },
    /// The peer that waits for it gets an exception.
    Raises {
        peer: NodeId,
        number: u64,
        exc: Exc,
    },
    /// Nobody waits for it, or the end towards the peer that does is closed.
    Drops,
}
