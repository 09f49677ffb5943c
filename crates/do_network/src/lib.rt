//! The definitions of a site and of a network of sites: its types, its rules in `specs/`, and their
//! laws.
//!
//! It stands on the rules of the machine and on the frames in which sites send their items. A site
//! follows these rules too, judged by its own counts in place of a look at the other nodes. It
//! promises what one input does to a site, what one event does to a network, and when a network
//! stands for a state of the machine. No program that runs them stands here.
//!
//! Proxies, their connections and what a connection vends are those of Apple's Distributed Objects
//! Programming Topics and of GNUstep's Base documentation of NSConnection. That a node counts the
//! names that it sent to each peer, and that a peer gives them back with their number, is this
//! project's own.
#![tactic(auto)]

mod fault;
mod input;
mod laws;
mod wire;

pub use fault::PeerFault;
pub use input::{Done, Input};
pub use laws::{
    closed_ends_count_nothing, enabled_is_not_skipped, first_classes_stay,
    fitting_frames_are_taken, fitting_frames_have_no_fault, fitting_sites_judge_alike,
    judged_alike, losses_keep_what_is_before, names_back_are_taken_off, opening_fits,
    other_sites_stay, sent_names_are_counted, skipped_changes_nothing,
    streams_begin_with_the_greeting, unknown_objects_have_no_class,
};
pub use wire::Wire;
