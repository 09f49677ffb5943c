//! How far inputs lead one node, whatever its peers send.
//!
//! It stands on what a site does and on the limits of what messages carry. It has no code of its
//! own: each of its functions is a law, of every behaviour that keeps the limits. It promises that
//! a lying peer brings no value into a node that a message cannot carry, and that each input raises
//! the node's numbers by no more than a bound.
//!
//! What a peer's frame brings is not asked to be short, as what is sent is: whatever fits a frame
//! is taken. So a take asks for what can be read, and its node keeps what can be sent.
#![tactic(auto)]

mod laws;

pub use laws::{
    frames_of_nodes_stay_within_limits, nodes_stay_within_limits, numbers_of_nodes_are_bounded,
};
