//! What one node has of its own: its objects, its invocations, its counts of what peers may use,
//! and what it holds of theirs.
//!
//! It stands on do_store, do_export, do_import and do_stack, which keep one part each, and on
//! do_leaving, which frees and leaves what nothing holds; its words are do_machine's and
//! do_network's. It promises the node after each change, with every count kept true, and that no
//! change fails for which room was made.
#![tactic(auto)]

mod holders;
mod names;
mod part;
mod tally;

pub use names::names_in;
pub use part::Part;
