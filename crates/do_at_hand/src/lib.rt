//! What slots and invocations name, their nodes can use.
//!
//! It stands on the definitions of the machine, on the facts of its states and on those of states
//! with open ends. It has no code of its own: each of its functions is a law, of every behaviour
//! whose acts name only what they were shown. It promises that while all ends are open each object
//! that a slot or an invocation names is stored, on whichever node.
#![tactic(auto)]

mod laws;

pub use laws::{named_objects_are_stored, starts_of_schedules_are_plain};
