//! Schedules that a number generates, for the built-in world `:mesh`.
//!
//! It stands on the lines of do_sched. It promises that the lines are those of the definition,
//! whatever the number. The form is this project's own.
#![tactic(auto)]

mod generating;

pub use generating::generate;
