use crate::held::Frame;
use crate::invocation::Handler;
use do_base::{Exc, Items, Locals, Text, Value, Values};
use do_class::ClassId;

/// A value for a slot of the own object.
#[derive(Debug, PartialEq, Eq, Drop)]
pub struct Write {
    /// The slot, from 0.
    pub slot: usize,
    /// What the slot then holds.
    pub value: Value,
}

/// Writes of slots, in order.
pub type Writes = Items<Write>;

/// What an invocation does in one step. `pc` is the place at which it goes on, and `into` the local
/// that takes what the act gives.
#[derive(Debug, PartialEq, Eq, Drop)]
pub enum Act {
    /// Sets all locals and the handler, and writes slots.
    Step {
        pc: u32,
        locals: Frame,
        handler: Option<Handler>,
        writes: Writes,
    },
    /// Makes an object.
    New {
        class: ClassId,
        into: u8,
        pc: u32,
    },
    /// Sends a message, where `from` is the local of each argument.
    Send {
        target: Value,
        selector: Text,
        args: Values,
        into: u8,
        from: Locals,
        pc: u32,
    },
    /// Asks for the root of the node with this port.
    Root {
        port: Value,
        into: u8,
        pc: u32,
    },
    /// Makes a value the root of the own node.
    Vend {
        value: Value,
        pc: u32,
    },
    /// Shows a value.
    Say {
        value: Value,
        pc: u32,
    },
    /// Ends with a result.
    Return {
        value: Value,
    },
    /// Ends with an exception, or goes on at the handler.
    Raise(Exc),
}
