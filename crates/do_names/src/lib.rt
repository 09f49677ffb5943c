//! A server of names: each name has one port. Its core, and the acts of its methods.
//!
//! It stands on the acts of do_native_acts. It keeps what GNUstep's documentation of `gdomap` says
//! of names: a name is given to one port, and is free again once it is taken out. What is promised
//! is exact: each call, and the port of a name as the calls made so far tell it. So is the act of
//! every method, for every invocation and all slots.
#![tactic(auto)]

mod acts;
mod calls;
mod entries;
mod names;

pub use acts::NameServer;
pub use calls::Call;
pub use names::Names;
