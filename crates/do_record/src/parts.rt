//! A record and its parts.
use do_base::{Items, NodeId, Text, Values};

/// An input of a node, as its record has it. The node is that of the record.
#[derive(Debug, Drop)]
pub enum RecordLine {
    /// The root was sent a selector with plain values, one for each colon.
    Start { selector: Text, values: Values },
    /// The top invocation did one act.
    Run,
    /// The oldest item of a peer was taken.
    Take(NodeId),
    /// The end towards a peer was closed.
    Close(NodeId),
    /// The connection to a peer ended without a notice of it.
    Ended(NodeId),
}

/// An input with what it showed.
#[derive(Debug, Drop)]
pub struct Block {
    /// The number of its first line in the record, from 1.
    pub line: u64,
    /// The input.
    pub input: RecordLine,
    /// The lines that it showed, each with its line feed.
    pub shown: Text,
}

/// The blocks of a record, in order.
pub type Blocks = Items<Block>;

/// What one node did.
#[derive(Debug, Drop)]
pub struct Record {
    /// The node.
    pub port: NodeId,
    /// Its inputs in order, with what they showed.
    pub blocks: Blocks,
    /// Whether the record has its last line, so that no input and no shown line is missing.
    pub whole: bool,
}

/// Records of several nodes.
pub type Records = Items<Record>;
