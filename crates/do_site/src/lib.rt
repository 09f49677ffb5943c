//! A site: one node of a network, which knows of the others what it counts, and speaks with them by
//! frames.
//!
//! It stands on the rules of do_rules, by which a site is judged as the plain machine is, and on
//! do_effects, which carries out in place what they decide. It promises that each input does to a
//! site what do_network's `site_step` says, whatever a peer sends. A site for which memory ran out
//! is as it was before.
#![tactic(auto)]

mod allowing;
mod awaiting;
mod basis;
mod faults;
mod ground;
mod hosted;
mod items;
mod listing;
mod needs;
mod opening;
mod planning;
mod room;
mod ruling;
mod site;
mod tally;
mod told;
mod traced;
mod work;

pub use site::Site;
