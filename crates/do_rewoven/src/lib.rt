//! Laws of records that are woven to a schedule and given again when it is replayed.
//!
//! It stands on do_woven, which reads records one behind another, and on do_weave, which weaves
//! them; it has no code of its own: each of its functions is a law. It promises that what is woven
//! is a schedule that is read again, whole, and that its transcript gives each record again.
#![tactic(auto)]

mod laws;

pub use laws::{read_records_are_given_again, woven_schedules_are_read};
