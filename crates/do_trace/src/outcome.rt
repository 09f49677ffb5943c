use do_base::{Items, NodeId, Oid, Peers, ShownList, Values};
use do_class::ClassId;

/// What a step did: whether it was enabled, and what it showed, in order.
#[derive(Debug, Drop)]
pub struct Outcome {
    /// Whether the step was enabled; one that was not changed nothing.
    pub enabled: bool,
    /// What was shown, in order.
    pub shown: ShownList,
}

/// A stored object, with its slots.
#[derive(Debug, Drop)]
pub struct ObjLine {
    /// The object's name.
    pub oid: Oid,
    /// Its class.
    pub class: ClassId,
    /// Its slots, in the order of the class.
    pub slots: Values,
}

/// Stored objects of one node, by rising serial.
pub type ObjLines = Items<ObjLine>;

/// An object of a node that is in use at a peer: the peer holds it, or an item on its way to the
/// peer exports it, or one on its way back releases it.
#[derive(Clone, Copy, Debug, PartialEq, Eq)]
pub struct Entry {
    /// The node at which the object is in use.
    pub peer: NodeId,
    /// The object, of the node that has the entry.
    pub object: Oid,
}

/// Entries of one node, by rising peer, then serial.
pub type EntryList = Items<Entry>;

/// One node of a check: its root, the peers towards which its end is closed, its objects and
/// entries.
#[derive(Debug, Drop)]
pub struct NodeLine {
    /// The node's port.
    pub node: NodeId,
    /// The node's root, if it vends one.
    pub root: Option<Oid>,
    /// The peers towards which the node's end is closed, by rising port.
    pub closed: Peers,
    /// The node's stored objects.
    pub objects: ObjLines,
    /// The node's entries.
    pub entries: EntryList,
}

/// Nodes of a snapshot, by rising port.
pub type NodeLines = Items<NodeLine>;

/// What a check shows of a whole state.
#[derive(Debug, Drop)]
pub struct Snapshot {
    /// The nodes, each once.
    pub nodes: NodeLines,
}
