//! Examples of the whole machine's definitions, each worked by hand and checked by evaluation.
//!
//! They show what neither a worked schedule nor a random one has shown so far. They stand on the
//! machine's definitions, and no other crate stands on them.
#![tactic(auto)]
