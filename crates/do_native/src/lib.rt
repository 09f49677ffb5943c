//! One behaviour for the classes of a world: scripts, servers and checkers.
//!
//! It stands on the kinds of classes and on the behaviour of each kind. It promises that an
//! invocation does the act of its class's kind, for every table, invocation and slots, and that
//! such acts are as good as those of each kind.
#![tactic(auto)]

mod law;
mod native;

pub use law::checkers_follow_their_rules;
pub use native::Native;
