//! The definitions of the machine: its types, its rules in `specs/`, and two laws.
//!
//! It stands on the behaviours of objects, on the packing of messages and on what a machine shows.
//! It promises that the rules are one function of a state and an event, by which a machine, the
//! sites of a network and the network itself are judged. No program that runs them stands here. Of
//! its laws only the two stand here that programs beside do_facts cite; the others stand there.
//!
//! Rules are chains of tests of which the first that applies decides.
#![tactic(auto)]

mod classes;
mod item;
mod laws;
mod node;
mod shared;
mod state;
mod verdict;

pub use classes::Classes;
pub use do_trace::{Entry, EntryList, NodeLine, NodeLines, ObjLine, ObjLines, Outcome, Snapshot};
pub use item::{Item, Message};
pub use laws::{kept_is_greatest, skipped_is_nothing};
pub use node::{Heap, LateCall, Lend, Lends, Node, Stored, Wanted};
pub use shared::Shared;
pub use state::{Effect, Parcel, Queue, Seat, Seats, State, Station, Stepped};
pub use verdict::{Request, SendAct, Verdict};
