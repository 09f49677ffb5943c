//! A pasteboard: types with data, which an owner gives when it is asked for them. Its core, and the
//! acts of its methods.
//!
//! It stands on the acts of do_native_acts. It keeps what Apple's and GNUstep's documentation of
//! `NSPasteboard` says. Each declaration raises the change count and takes the data away. A lazy
//! owner is asked once data is wanted, and data that belongs to an earlier change count is refused.
//! What is promised is exact: each call, and what a pasteboard has as the calls made so far tell
//! it. So is the act of every method, for every invocation and all slots.
//!
//! `pasteboardNamed:` sees before it makes a pasteboard whether the slot that will keep it is
//! within the limits. The own object stands in the new one's place there, which is as heavy. So
//! no pasteboard is made in vain.
#![tactic(auto)]

mod acts;
mod asking;
mod board;
mod calls;
mod declaring;
mod kept;
mod naming;
mod parts;
mod sets;
mod slots;
mod types;

pub use acts::PasteboardServer;
pub use board::{Board, BoardData};
pub use calls::Call;
