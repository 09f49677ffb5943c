//! What a search for leaks tells of the states that a machine comes to.
//!
//! It stands on the search and its definitions, and on the facts of the machine's states. It has no
//! code of its own: each of its functions is a law, of every behaviour. It promises that no object
//! which nothing can reach is left out. Once nothing is on its way the search starts at roots and
//! invocations alone, so what it tells are cycles of slots and what these hold.
#![tactic(auto)]

mod laws;

pub use laws::{each_lost_object_is_told, quiet_states_are_settled};
