//! What a network asks of its sites to tell which objects it names beside slots.
//!
//! It stands on do_net, whose sites these are, and on do_lost for what a node names. It promises a
//! trait alone, which a site implements. The form is this project's own.
//!
//! What a site tells of its names is a trait of its own, beside `Hosted`, so that a network of
//! other sites need not tell it.
#![tactic(auto)]

mod traced;

pub use traced::Traced;
