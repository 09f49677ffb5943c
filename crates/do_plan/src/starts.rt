//! What a served node does by itself.
use do_base::{Items, Text, Values};

/// A line of starts between the first line and `end`.
///
/// It is used once the node's stack is empty and what it waits for has come.
#[derive(Debug, Drop)]
pub enum StartLine {
    /// The node's root is sent a selector with plain values, one for each colon.
    Start {
        /// The selector.
        selector: Text,
        /// The values, each nil, a number or a text of at most 1,048,575 bytes.
        values: Values,
    },
    /// This number of calls and oneway messages was taken.
    Serve(u64),
    /// This number of ends of the node is closed.
    Until(u64),
    /// The node closes each open end over which a frame was sent or taken.
    Leave,
}

/// The lines of starts between the first line and `end`, in order.
///
/// The list itself keeps no limit; those of starts are 10,000 at most.
pub type Starts = Items<StartLine>;
