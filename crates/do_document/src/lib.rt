//! Documents of worlds: what stands in a TOML text, what may be wrong with it and at which path,
//! and the classes that it says.
//!
//! It stands on the kit's `toml` for documents, on the readers of signatures, the class table and
//! the kinds of classes. It promises that each part of a document is read exactly: as what the part
//! says, or with the first of its faults.
#![tactic(auto, using(crate::proofs::Finding::checks))]

mod classes;
mod document;
mod entries;
mod fault;
mod lists;
mod methods;
mod parts;
mod place;
mod slots;

pub use classes::{Classes, classes_of};
pub use document::{ItemKind, check_list, known_keys, required, tables_at, text_of, value_at};
pub use fault::WorldFault;
pub use place::Place;
