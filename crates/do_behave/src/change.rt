use crate::act::{Act, Writes};
use crate::invocation::Handler;
use do_base::{Exc, Items, Value};

/// A value for a local.
#[derive(Debug, PartialEq, Eq, Drop)]
pub struct LocalSet {
    /// The local, from 0.
    pub local: u8,
    /// What the local then holds.
    pub value: Value,
}

/// Values for locals, in order.
pub type LocalSets = Items<LocalSet>;

/// The one change that an act makes to an invocation and the slots of its object, so that nothing
/// else is copied. `pc` is the place at which the invocation goes on.
#[derive(Debug, Drop)]
pub enum Change {
    /// Sets a local.
    Local {
        into: u8,
        value: Value,
        pc: u32,
    },
    /// Appends an item to the list in a local, which then has this weight.
    Push {
        list: u8,
        item: Value,
        weight: u64,
        pc: u32,
    },
    /// Goes on.
    Goto {
        pc: u32,
    },
    /// Writes a slot.
    Slot {
        slot: usize,
        value: Value,
        pc: u32,
    },
    /// Sets several locals and writes several slots, each in order, and has this handler or none.
    Slots {
        sets: LocalSets,
        handler: Option<Handler>,
        writes: Writes,
        pc: u32,
    },
    /// Has another handler or none.
    Handler {
        handler: Option<Handler>,
        pc: u32,
    },
    /// Any act.
    Other(Act),
}

impl Change {
    ghost use Rattle.std.specs.Prelude.{◌≡◌, None};
    ghost use Rattle.do_behave.specs.Steps.{or_fault};

    /// The change of an act that finds no value, or none of its kind: it raises Type.
    pub fn type_fault() -> Change
        ensures { result ≡ Change.Other (or_fault None) }
    {
        Change::Other(Act::Raise(Exc::TypeFault))
    }
}
