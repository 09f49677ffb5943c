//! Stored objects that nothing can reach any more: cycles over several nodes, and what they hold.
//!
//! It stands on do_trace for what a check lists of a state, and on do_packet for the words of
//! objects among others. It promises exactly the objects that are outside the smallest set which
//! has the named objects and what slots of its stored members name.
//!
//! The search takes what is reached out of a map, in place of a set of what was seen. What is
//! left are the leaks, and the measure of the loop is what waits with all that the map holds.
//!
//! Maps are in order and not hashed, since a peer chooses the serials of its own objects.
#![tactic(auto)]

mod holders;
mod laws;
mod leak;
mod listing;
mod objects;
mod rest;

pub use laws::{all_lost_are_leaks, leaks_are_lost, reach_is_smallest};
pub use leak::{Leak, LeakList};
pub use listing::leaks;
pub use objects::{push_all_objects, push_objects};
