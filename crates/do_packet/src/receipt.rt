use do_base::{Items, NodeId, Values};
use do_class::ClassId;

/// What a message is read by: its sender and its receiver, the receiver's next serial, and how many
/// copies the message has.
#[derive(Debug, Drop)]
pub struct Receipt {
    /// The sender.
    pub from: NodeId,
    /// The receiver.
    pub to: NodeId,
    /// The serial that the first copy gets.
    pub next: u64,
    /// How many copies the message has.
    pub copies: usize,
}

/// An object that a message makes: its class, and what its slots hold.
#[derive(Debug, PartialEq, Eq, Drop)]
pub struct Made {
    /// The class of the object.
    pub class: ClassId,
    /// What its slots hold, in the order of the class.
    pub slots: Values,
}

/// The objects that a message makes, by rising serial.
pub type ObjList = Items<Made>;

/// What a message is at its receiver: new objects, and values.
#[derive(Debug, PartialEq, Eq, Drop)]
pub struct Unpacked {
    /// The objects to be made.
    pub copies: ObjList,
    /// The values, in order.
    pub values: Values,
}
