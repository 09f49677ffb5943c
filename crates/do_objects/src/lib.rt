//! What the steps of the machine do to stored objects, and whose methods run on them.
//!
//! It stands on the definitions of the machine and has no code of its own: each of its functions is
//! a law, of every behaviour. It promises that slots are written by acts of their own object alone,
//! and that a freed object does not return. An invocation runs a method of its object's class,
//! which the table has, with 16 locals.
#![tactic(auto)]

mod laws;

pub use laws::{
    freed_objects_never_return, invocations_can_act, invocations_run_own_methods,
    slots_are_written_by_own_acts,
};
