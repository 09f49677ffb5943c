//! What protocol checkers do over every schedule of the machine.
//!
//! It stands on the definitions of the machine and on the behaviour of classes of all kinds. It has
//! no code of its own: each of its functions is a law. It promises that a checker keeps its target,
//! passes on only what its class allows, to its target alone, and raises the rule of each message
//! that is denied.
#![tactic(auto)]

mod laws;

pub use laws::{checkers_send_to_their_target, denials_raise_their_rule, targets_stay};
