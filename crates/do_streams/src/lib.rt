//! What a site keeps of the streams between it and its peers: tables of recent names, frames that
//! wait to be fetched, and lines that wait to be shown.
//!
//! It stands on the frames of do_frames and on the cells of do_pool, in which all that waits
//! stands. do_spelled tells what has a spelling, and do_network has the words for links. It
//! promises that the bytes that are fetched are those of the frames that were posted, in order,
//! with the greeting before the first. Each is spelled by the names that were sent over its link
//! before, and its peer can read it. A peer's frame is read by the names that its frames named
//! lately. Posting takes no memory where room was made before, which is one room for frames and
//! lines. The form is this project's own.
#![tactic(auto)]

mod end;
mod fetching;
mod names;
mod reading;
mod spelled;
mod spelling;
mod streams;
mod waiting;

pub use reading::{Reading, read_by};
pub use streams::Streams;
