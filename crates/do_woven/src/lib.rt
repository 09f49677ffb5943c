//! Records of a world's nodes, read one behind another, and the text of a schedule.
//!
//! It stands on do_record for records and on do_machine for the nodes of a world. It promises that
//! each record is taken, or refused at its first line at fault, and the exact text of a schedule.
//! The form is this project's own.
#![tactic(auto)]

mod judging;
mod steps;
mod text;

pub use judging::record_behind;
pub use text::schedule_text;
