//! The bytes that an output took, of which only proofs know.
//!
//! It stands on nothing. It promises that what was taken grows by the bytes that are told, and by
//! no others. A history takes no memory, and its functions do nothing where they run. The form is
//! this project's own.
//!
//! What an output took is ghost data, which nothing relates to memory. It binds what is generic
//! over outputs, which is all but `StdSink::put` and `write_some`: these few lines must be
//! read.
#![tactic(auto)]

mod taken;

pub use taken::{Piece, Taken};
