//! Nodes that are served and plans that are run, as the words of a command ask for them.
//!
//! It stands on what words give, on serving over a link and on running children, over any site of a
//! network. It promises of each status why it came, of each refusal that it comes, and that what is
//! given is served or run, or memory ran out.
//!
//! A node's own state is any site that can be served, so that these commands are proved over
//! the trait; the program names the site.
//!
//! A command that serves or runs answers the status itself, and one record (`ComesTo`) says for
//! all statuses why each came, what is refused, and what runs.
#![tactic(auto)]

mod node;
mod opening;
mod plan;

pub use node::serve_given;
pub use plan::lab_given;
