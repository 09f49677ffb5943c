//! The invocations of a node, and the answers to the calls that they wait for.
//!
//! It stands on do_base and do_behave, keeps late calls in a map of do_sorted, and takes the words
//! for waiting and late calls from do_machine. It promises the invocations and the late calls after
//! each change, and what a change of the top takes out of it. An answer finds the invocation that
//! waits for it.
#![tactic(auto)]

mod late;
mod law;
mod naming;
mod stack;
mod waits;

pub use do_behave::{Exchanged, Left, Taken};
pub use law::{
    counts_are_references, holders_are_references, named_objects_are_uses, uses_are_references,
};
pub use naming::objects_named;
pub use stack::{PushBack, Stack};
