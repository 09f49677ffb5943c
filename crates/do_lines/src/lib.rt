//! The lines of a transcript: each block is the line of the schedule and what was shown for it.
#![tactic(auto)]

mod check;
mod line;
mod shown;

pub use check::{check_text, push_check};
pub use line::{line_text, push_head, push_outcome, stepped_node};
pub use shown::push_shown;
