//! What a change of an invocation took out, and what it leaves to do.

use crate::act::{Act, Writes};
use crate::held::Frame;
use do_base::{Value, Values};

/// What a change took out of the locals of an invocation.
///
/// Whoever counts uses takes these values off, and adds those that the change put in.
#[derive(Debug, Drop)]
pub enum Taken {
    /// No value.
    Nothing,
    /// The value of one local.
    One(Value),
    /// The values of several locals.
    Many(Values),
    /// The values of all locals.
    All(Frame),
}

/// What is left to do once an invocation was changed.
#[derive(Debug, Drop)]
pub enum Left {
    /// Nothing.
    Nothing,
    /// To write a slot of the invocation's object.
    Slot {
        /// The slot, from 0.
        slot: usize,
        /// What it then holds.
        value: Value,
    },
    /// To write slots of the invocation's object, in order.
    Slots(Writes),
    /// An act that is no step.
    Other(Act),
}

/// What a change took out of an invocation, and what is left to do.
#[derive(Debug, Drop)]
pub struct Exchanged {
    /// What the locals held before.
    pub taken: Taken,
    /// What the change does besides, still to be done.
    pub left: Left,
}
