//! Links: how a node hears its peers and sends to them, as a trait and as one in memory.
//!
//! It stands on the names, lists and texts of do_base and on do_output's words of what an outside
//! tells. It promises that a link tells one list in which each listen, each event and each send
//! stands in order. Each fault and each poll that found nothing is counted. The forms are this
//! project's own.
#![tactic(auto)]

mod link;
mod mem_link;
mod script;

pub use link::{Link, LinkEvent, LinkFail};
pub use mem_link::MemLink;
pub use script::{ScriptEvent, ScriptList, Sent, SentList};
