//! Schedules as text: lists of lines, each one step or a run of steps, read exactly and printed;
//! and how values are written.
//!
//! The second version of schedules is read, and one of the first is written anew as one of the
//! second. The forms are this project's own.
#![tactic(auto)]

mod fault;
mod line;
mod printing;
mod reading;
mod upgrading;
mod value;
mod version;
mod words;

pub use fault::SchedFault;
pub use line::{Line, Lines};
pub use printing::{print_line, push_line};
pub use reading::read_schedule;
pub use upgrading::upgrade;
pub use value::{push_object, push_value};
pub use version::Version;
pub use words::{line_from, node_of, nodes_of, pair_of, part_in, plain_of, values_of, word_in};
