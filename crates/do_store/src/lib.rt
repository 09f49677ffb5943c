//! The objects of one node, with counts that tell which of them nothing holds.
//!
//! It stands on the kit's `slab`, where objects lie, on do_pool, whose queue has those that may be
//! idle, and on do_base and do_class for values and classes. It promises the list of objects after
//! each change, that `sweep` takes out only what nothing holds, and that it leaves no such object.
#![tactic(auto)]

mod counting;
mod law;
mod object;
mod pairs;
mod store;
mod table;
mod waiting;

pub use law::sweeping_leaves_kept;
pub use store::{Freed, Store};
