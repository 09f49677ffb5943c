//! What a schedule comes to over a network of sites, in numbers.
//!
//! It stands on do_replay, which does a schedule's lines over a network. It promises that the
//! summary counts what the transcript of these lines shows, with what was sent in each, by the
//! definitions of do_network. The form is this project's own.
#![tactic(auto)]

mod adding;
mod counts;
mod summing;
mod text;

pub use counts::Summary;
pub use summing::summary;
pub use text::push_summary;
