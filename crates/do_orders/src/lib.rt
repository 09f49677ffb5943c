//! Inputs of different nodes may come in any order.
//!
//! It stands on the machine's definitions, on the facts of the states that it comes to, and on the
//! weaving of records. It has no code of its own: each of its functions is a law, of every world
//! and behaviour. It promises that enabled inputs of different nodes commute, so that a
//! contradiction of the weaver stands in every order of the inputs.
//!
//! The weaver always takes the record of the lowest port whose next input is enabled. That no
//! other choice does better needs no history. Enabled inputs of different nodes commute in
//! every state that a machine comes to, so an enabled input may always come first. The states
//! come to are equal, not only alike: what each step takes off a queue, sends and leaves is the
//! same in either order.
//!
//! An end that came without notice is one input, a loss behind nothing and the take of the end.
//! As a move it takes nothing off: the end that the loss puts first is the one that the take
//! has.
#![tactic(auto)]

mod laws;

pub use laws::{
    contradictions_stand_in_every_order, enabled_inputs_are_moves, inputs_of_two_nodes_commute,
    moves_of_two_nodes_commute,
};
