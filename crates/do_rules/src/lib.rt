//! The rules of the machine as functions that change nothing. They say what a run, an item that is
//! taken, a start, a closed end and a time-out come to at a node, and what it then frees and
//! leaves. What a rule judges by is a `Basis`, so that each node is judged by the same rules,
//! however it is kept.
//!
//! It stands on do_machine, whose definitions it computes, and on do_packet for messages. It
//! promises that each function gives exactly what its definition says, in every state. Its one
//! error is that memory ran out, or that a number would pass what a machine can count.
//!
//! What do_rules and do_local offer gives a value, and the machine takes the new state last of
//! all. So it is as it was if memory runs out, and no room is made beforehand. Inside do_rules
//! a step is written into one effect that begins as a copy of the node; where memory runs out
//! it is dropped.
#![tactic(auto)]

mod basis;
mod effect;
mod ends;
mod held;
mod judged;
mod law;
mod lend;
mod lists;
mod node;
mod packing;
mod run;
mod start;
mod state;
mod take;

pub use basis::Basis;
pub use ends::closing::closing;
pub use ends::time_out::time_out;
pub use held::entered::has_entry;
pub use held::leaving::leaving;
pub use judged::{Context, Run, Turn};
pub use law::{deliveries_are_made, rulings_are_arrivals};
pub use lists::{item_at, put_at};
pub use node::methods::Found;
pub use node::{can_take, has_object, is_open, own};
pub use run::answers::exc_name;
pub use run::delivery::Delivery;
pub use run::fresh::{blank, fresh};
pub use run::next::run_effect;
pub use start::{begun, start_effect};
pub use state::{node_at, queue, station};
pub use take::awaiting::{Answered, asked_by, awaits};
pub use take::judging::ruling;
pub use take::lines::item_line;
pub use take::ruling::Ruling;
