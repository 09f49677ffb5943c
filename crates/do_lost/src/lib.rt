//! The stored objects of a state of the machine that nothing can reach any more, and how they are
//! written.
//!
//! It stands on do_machine, whose states these are, on do_rules for what is asked of a state and on
//! do_leaks for the search. It promises exactly the objects from which the search starts, those of
//! roots, invocations, lends, asks and items under way, and the exact text. The form is this
//! project's own.
//!
//! An end that waits before a closed end names nothing, since it is dropped where it is taken.
//! Every other item names what it names, the objects that an end gives up among them.
//!
//! Objects may stand more than once among those that a state names. The search asks only
//! whether one is there.
#![tactic(auto)]

mod items;
mod nodes;
mod state;
mod text;

pub use items::{Way, push_names};
pub use nodes::push_invocation;
pub use state::{named, quiet};
pub use text::{leaks_head, lost_text, push_leak};
