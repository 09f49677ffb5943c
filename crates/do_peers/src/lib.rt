//! What one peer can do to what a site has with the others: nothing.
//!
//! It stands on the definitions of a site, and on the facts of the machine's states. It has no code
//! of its own: each of its functions is a law. It promises that no input from one peer changes what
//! a site keeps for another, and lists all that may change where the end towards a peer closes. It
//! promises too that the machine's entries change by steps of their home alone.
//!
//! What one peer can bring about is said of every state of a site, and not of those alone that
//! a machine comes to, since a lying peer may lead elsewhere. What changes where an end closes
//! is listed by the machine's own words for it, so the list can lack nothing that they have.
#![tactic(auto)]

mod laws;

pub use laws::{closing_changes_no_more, entries_change_at_home, other_peers_stay};
