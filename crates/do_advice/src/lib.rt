//! What a person is told on standard error beside the line of a status: lines of text, and how
//! many starts of a node an exception ended.
//!
//! It stands on the texts, names and sinks of do_base and on how do_grammar writes numbers. It
//! promises of each line its text, and that an output which is watched gets what it would get else.
//! The form is this project's own.
#![tactic(auto)]

mod nodes;
mod ports;
mod raised;
mod watched;

pub use nodes::push_nodes;
pub use ports::push_unheard;
pub use raised::push_raised;
pub use watched::Watched;
