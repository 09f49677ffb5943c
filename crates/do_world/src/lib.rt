//! Worlds: classes with what decides their acts, and the nodes that a machine opens with.
//!
//! It stands on documents and their classes, the method language and the machine's definitions. It
//! promises that a text is read as the world that it says, or refused with its first fault, and
//! that the built-in worlds are those that their definitions name.
//!
//! The program has an empty code for each method of a native class, so that it is made for the
//! whole table. What such a class does is decided by its kind, and nobody asks for those codes.
#![tactic(auto)]

mod by_name;
mod codes;
mod counter_world;
mod method_codes;
mod reader;
mod seats;
mod world;

pub use by_name::{builtin, mesh};
pub use counter_world::counter;
pub use do_document::WorldFault;
pub use reader::read_world;
pub use world::World;
