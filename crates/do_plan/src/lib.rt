//! Starts and plans as text: what a served node does by itself, and which nodes are started as
//! children, each read exactly.
//!
//! It stands on the words of schedules in do_sched and on the words of the command line in do_cli.
//! It promises that the reader of each text answers its lines or its first faulty line, for all
//! bytes. The forms are this project's own.
//!
//! Starts and plans stand in a crate of their own and not in do_sched, on which the whole
//! machine stands and which would pass 100 functions. They are read over the words of
//! do_sched's lines and the definitions of do_cli's words.
#![tactic(auto)]

mod form;
mod plan;
mod planning;
mod reading;
mod starting;
mod starts;

pub use plan::{Plan, PlanLine};
pub use planning::read_plan;
pub use starting::read_starts;
pub use starts::{StartLine, Starts};
