//! A table of values by name, in the order in which the names came.
//!
//! It stands on the kit's `indexmap`, which alone both finds by a key and keeps an order. Each call
//! is exact over the list of the entries: a look-up takes no walk through the table, and taking out
//! a name moves the entries behind it. A name is told from another byte by byte.
#![tactic(auto)]

mod entry;
mod key;
mod table;

pub use entry::Entry;
pub use table::Table;
