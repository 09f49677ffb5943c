//! What a step does to a site, each effect carried out in place: on the node's own state, and on
//! what waits for its peers and to be shown.
//!
//! It stands on do_part for the node's own state, on do_streams for what waits to be fetched, and
//! on do_rules for what was judged. What each effect is stands in do_machine and do_network. It
//! promises that what is carried out is that effect, with the counts of do_network, and that none
//! of it fails for which room was made. The form is this project's own.
//!
//! A step of a site is what its effect does, and then what it leaves: two calls, each with one
//! equation. Between them a node counts nothing that it does not keep. So an effect that sends
//! nothing and keeps what is held and asked for is a call of the node's own part and no more.
//!
//! What a call may take is told as one record of numbers, which the caller makes room for:
//! objects, invocations, names, entries, and frames and lines.
#![tactic(auto)]

mod changing;
mod ends;
mod framing;
mod plan;
mod run;
mod sending;
mod take;

pub use changing::Core;
pub use plan::Plan;
