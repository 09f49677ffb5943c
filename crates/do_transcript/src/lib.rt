//! The transcript of a schedule over the machine of the definitions.
//!
//! It stands on do_local, on do_lines and on do_output. It promises that what a schedule's lines
//! come to on a machine, and the text that is written of it, are those of the definitions.
//!
//! The transcript of the one machine is written by a library of its own. So other programs can
//! write it and compare it with what a network of sites shows.
#![tactic(auto)]

mod blocks;
mod stepping;
mod transcript;

pub use stepping::step_line;
pub use transcript::write_transcript;
