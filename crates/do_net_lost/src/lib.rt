//! What a network of sites names beside the slots of their objects, and what nothing can reach in
//! it.
//!
//! It stands on do_net and on what do_traced asks of sites, reads what is under way by do_streams,
//! and rests on the laws of do_net_named. It promises exactly the objects from which a search for
//! what nothing can reach starts in the machine's state, and the text of what the search finds.
//! That state is the one for which the network stands. The form is this project's own.
#![tactic(auto)]

mod frames;
mod naming;
mod still;
mod text;
mod told;
mod ways;

pub use naming::named;
pub use text::lost_text;
