//! That no line of a transcript of the one machine says what was sent.
//!
//! It stands on the definitions of the machine, of worlds and of transcripts. It has no code of its
//! own: each of its functions is a law, of every behaviour. It promises that dropping the lines
//! that begin with `wire ` leaves a transcript of the one machine as it is, over each world that is
//! read.
//!
//! A selector stands in a transcript as it is, and so do names of classes and slots. What a
//! node sends finds a method of the table, so its selector is one whatever the acts are. Names
//! are the world's, and each world that is read has them.
#![tactic(auto)]

mod laws;

pub use laws::{machines_write_plain_lines, worlds_have_names};
