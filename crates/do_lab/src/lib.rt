//! Children of a plan: each line's node is started as a process of its own, and waited for.
//!
//! It stands on the plans of do_plan, on the sinks of do_base and on do_output's words of what an
//! outside tells. It promises that each line's child is started once and in order, that each child
//! that started is waited for once, and which line is the first to fail. The forms are this
//! project's own.
#![tactic(auto)]

mod children;
mod mem_spawner;
mod parts;
mod running;
mod spawner;
mod starting;

pub use children::{ChildEnd, LabEnd};
pub use mem_spawner::{MemSpawner, StatusList};
pub use running::lab;
pub use spawner::{ChildId, SpawnFail, Spawner};
