//! Packing values into messages between nodes, and unpacking them at their receiver.
//!
//! It stands on class tables, which own the types of messages. It promises that `pack` gives
//! exactly the message of the definition or says which limit it breaks. `unpack` gives exactly what
//! the definition makes of it, and what is unpacked is what was packed, with the copies renamed.
//! The form of messages is this project's own, for what GNUstep's `NSDistantObject` and
//! `NSPortCoder` do.
#![tactic(auto)]

mod fault;
mod laws;
mod packing;
mod receipt;
mod role;
mod unpacking;
mod view;

pub use fault::PackFault;
pub use laws::{copies_are_least, names_name_their_objects, objects_stand_once, values_return};
pub use packing::pack;
pub use receipt::{Made, ObjList, Receipt, Unpacked};
pub use role::Role;
pub use unpacking::unpack;
pub use view::View;
