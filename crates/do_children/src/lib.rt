//! The children of plans as they are: processes that run this program.
//!
//! It stands on the trait of do_lab, on std's processes, and on do_sockets for children's ports. It
//! promises the trait's clauses on faults and on which children may be waited for; no contract can
//! see what a process does. The form is this project's own.
#![tactic(auto)]

mod proc_spawner;

pub use proc_spawner::ProcSpawner;
