//! The foreign objects of a node: those that it received and uses, those that it lent to third
//! nodes, and those that it asked their homes for.
//!
//! It stands on do_base, do_class, do_sorted and do_export. It promises the counts, lends and asks
//! after each change exactly, and finds the object that may leave next without a walk over all.
#![tactic(auto)]

mod asks;
mod by_object;
mod holdings;
mod imports;
mod lends;

pub use asks::Asks;
pub use holdings::Holdings;
pub use imports::Imports;
pub use lends::Lends;
