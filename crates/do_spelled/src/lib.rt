//! Whether a frame has a spelling that its reader reads.
//!
//! The crate stands on the frames of do_frames and on the class table that both ends of a
//! connection have. It promises that a frame which `has_spelling` takes is read back from its
//! bytes. One that it refuses has a number, a text, a name, a place or a list past the limits that
//! do_coder and do_frames set.
//!
//! The limits are this project's own.
#![tactic(auto)]

mod frame;
mod name;
mod packet;
mod part;
mod ranges;

pub use frame::has_spelling;
