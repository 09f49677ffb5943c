//! The machine as a plain program: a world's nodes, with what is under way between them.
//!
//! It stands on do_machine, whose definitions it runs, and on do_rules for what one step of a node
//! does. It promises that each event comes to what its definition says, in every world, and that
//! the machine is as it was if memory runs out. It is the reference that other machines are
//! compared with, and may be slow. A step looks at all that the acting node keeps, once more for
//! each round in which the node frees objects. It also looks at what the node's peers hold of it.
//! Of the rest of the state it copies a reference to each node. docs/PERFORMANCE.md has the
//! figures.
//!
//! The plain machine is two crates, since one has about 100 functions at most: do_rules, which
//! changes no state, and do_local, which has the state.
#![tactic(auto)]

mod check;
mod commit;
mod local;
mod losing;
mod opening;
mod stations;
mod stepping;

pub use do_machine::{Seat, Seats};
pub use local::Local;
