//! Records: what a node that served wrote of its inputs and of what each of them showed.
//!
//! It stands on do_sched and do_lines, since an input is written as a line of a schedule is, and
//! what it showed as in a transcript. It promises that bytes are read exactly: as the record that
//! they are by the grammar, or with the first line that may not stand where it stands. The form is
//! this project's own.
//!
//! Records are read in a crate of their own, over the public words of do_sched, and not in
//! do_sched itself. do_sched stands below the whole machine, so each change of it is proved
//! again with all that stands above. It would have passed a hundred functions too. An input is
//! read by do_sched's `line_from`, so a line of a record is what it is in a schedule.
#![tactic(auto)]

mod laws;
mod line;
mod parts;
mod reading;
mod shown;
mod value;

pub use laws::{read_inputs_are_good, readings_are_exact};
pub use parts::{Block, Blocks, Record, RecordLine, Records};
pub use reading::read_record;
