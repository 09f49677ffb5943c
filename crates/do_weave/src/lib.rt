//! Records of separate nodes, woven into one schedule.
//!
//! It stands on do_machine for what each input does, on do_record for records and on do_lines for
//! the text of what was shown. It promises the schedule that the definitions weave, or the first
//! block that contradicts.
#![tactic(auto)]

mod fault;
mod inputs;
mod laws;
mod machine;
mod thread;
mod turns;
mod weaving;

pub use fault::WeaveFault;
pub use laws::{schedules_are_orders, schedules_give_records_again, woven_lines_are_good};
pub use machine::Machine;
pub use weaving::weave;
