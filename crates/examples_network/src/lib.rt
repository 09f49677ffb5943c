//! Examples of the definitions of sites and networks, each worked by hand and checked by
//! evaluation.
//!
//! They show at small sites what bytes are sent, which frames a peer may not send, and what a loss
//! and a close come to. They stand on do_network, and no other crate stands on them.
#![tactic(auto)]
