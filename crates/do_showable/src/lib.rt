//! What a node shows may stand in a record, whatever its peers send.
//!
//! It stands on what a site does, on how far inputs lead a node and on the grammar of records. It
//! has no code of its own. Each of its functions is a law, of every behaviour that keeps the
//! limits.
//! It promises that each line that a node shows is one that a reader of records takes.
#![tactic(auto)]

mod laws;

pub use laws::lines_of_nodes_may_stand;
