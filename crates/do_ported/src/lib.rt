//! What has a port, found by halves where ports rise.
//!
//! It stands on the ports and the lists of do_base. It promises what a walk from the front would
//! find, in steps as the logarithm of how many there are. The form is this project's own.
#![tactic(auto)]

mod ports;
mod rising;

pub use ports::Ports;
pub use rising::{Ported, place_of};
