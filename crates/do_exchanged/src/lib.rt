//! What nodes recorded that exchanged their bytes can be done by one machine.
//!
//! It stands on what serving records and on the agreement of a network with the machine. It has no
//! code of its own: each of its functions is a law, of every world and of every behaviour that keeps
//! values within the limits. It promises that such records are read, and woven.
#![tactic(auto)]

mod laws;

pub use laws::{exchanged_records_can_be_done, served_files_are_read};
