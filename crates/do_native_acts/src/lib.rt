//! What the acts of native classes share: the selector at hand, answers, sends, lists kept in
//! slots, the types of pasteboards, and steps whose values keep the limits.
//!
//! It stands on the invocations and changes of do_behave. Each call is exact: its change means the
//! act that its definition names, for every invocation. The acts are this project's own.
//!
//! The result of a message that a native method sends goes to local 13, and so does what comes
//! out of its arguments. So no other local changes. The answer of a method stands in local 14.
//!
//! The empty list stands in a slot as nil, and only so, so that a list has one form in slots.
//!
//! The types of a pasteboard, of which a service takes and gives some, are tested here for
//! both. They are at most 64 texts, so that none stands there twice is seen by comparing each
//! with those behind it, without memory.
//!
//! A method that only answers acts alike on each core, so its act stands once, over a trait of
//! cores (`Core`, `call_act`). A centre keeps deliveries in place of an answer, in a local that
//! depends on the method. So its first act is its own.
#![tactic(auto)]

mod answers;
mod cores;
mod fault;
mod limits;
mod locals;
mod ports;
mod rows;
mod selectors;
mod steps;
mod types;

pub use answers::{answer, send};
pub use cores::{Core, call_act};
pub use fault::CoreFault;
pub use limits::is_limited;
pub use locals::{as_number, local_number, local_owner, local_text, owner_in};
pub use ports::port_in;
pub use rows::{Row, read_list, read_rows, show_list, show_rows};
pub use selectors::selector_in;
pub use steps::{answered, changes, step};
pub use types::{MAX_TYPES, are_types, types_in};
