//! Values, names and lists that every crate above stands on, and the outside as traits: a shelf of
//! files and a sink for bytes, with both in memory.
#![tactic(auto)]

mod events;
mod lists;
mod names;
mod outside;
mod values;

pub use events::event::Event;
pub use events::exception::Exc;
pub use events::shown::{Shown, ShownList, Took};
pub use lists::exact::{ExactClone, ExactEq};
pub use lists::items::{Flags, Items, Locals};
pub use lists::reserved::Reserved;
pub use names::node::{CallId, NodeId, Oid, Oids, Peers, Token};
pub use outside::mem_shelf::MemShelf;
pub use outside::mem_sink::MemSink;
pub use outside::shelf::{FetchFail, FileList, NamedFile, Shelf};
pub use outside::sink::{CallList, PutFail, Sink, write_all};
pub use values::text::{LONGEST_TEXT, Text, Texts, Word};
pub use values::value::{Value, Values, copy_value, same_value, weight};
