//! A state counts references to its stations, and a station to its node, its queues and the
//! classes of its objects. A queue counts those to its items, a node those to its list of
//! stored objects, and that list those to these. So a step copies lists of references and what
//! it changes, at the station of the node that acts and the one whose item it takes. It does so
//! twice: once with what the node did, and once without what it then frees and leaves, which is
//! judged in between. The list of stored objects is copied by a step alone that writes a slot,
//! makes an object or frees one. The classes stand in blocks of 256: a step that makes an
//! object copies the last block.

use crate::classes::Classes;
use crate::item::Item;
use crate::node::Node;
use crate::shared::Shared;
use do_base::{Items, NodeId, ShownList};
use do_class::ClassId;
use do_trace::Outcome;

/// What a node sent to one peer and the peer did not take yet, the oldest first.
#[derive(Drop)]
pub struct Queue {
    /// The peer that takes the items.
    pub to: NodeId,
    /// What waits, the oldest first.
    pub items: Items<Shared<Item>>,
}

/// A node, with its queues to its peers by rising port, and the classes of all objects that it ever
/// made, by serial from 1.
#[derive(Drop)]
pub struct Station {
    /// The node's port.
    pub port: NodeId,
    /// The node itself.
    pub node: Shared<Node>,
    /// One queue for each other node.
    pub queues: Items<Shared<Queue>>,
    /// The class of each object that the node ever made.
    pub classes: Classes,
}

/// The nodes of a machine, by rising port.
#[derive(Clone, Drop)]
pub struct State {
    /// One station for each node.
    pub stations: Items<Shared<Station>>,
}

/// An item with the peer that it goes to.
#[derive(Drop)]
pub struct Parcel {
    /// The peer that the item goes to.
    pub to: NodeId,
    /// The item.
    pub item: Shared<Item>,
}

/// The node after a step, what it sent, and what it showed.
#[derive(Drop)]
pub struct Effect {
    /// The node then.
    pub node: Node,
    /// What was sent, in order.
    pub sent: Items<Parcel>,
    /// What was shown, in order.
    pub shown: ShownList,
}

/// A state after an event, and what the event came to.
#[derive(Drop)]
pub struct Stepped {
    /// The state then.
    pub state: State,
    /// What the event came to.
    pub outcome: Outcome,
}

/// A node of a world, with the class of its root.
#[derive(Clone, Copy, Debug, PartialEq, Eq)]
pub struct Seat {
    /// The node's port.
    pub node: NodeId,
    /// The class of its root, which is its first object.
    pub root: ClassId,
}

/// The nodes of a world, in any order.
pub type Seats = Items<Seat>;
