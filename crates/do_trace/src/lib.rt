//! What a machine shows: outcomes of steps, and what a check lists.
//!
//! It stands on the values of do_base and the classes of do_class, and knows no rule of the
//! machine. It promises types and a record alone, which a machine fills and a transcript is written
//! from.
//!
//! What a step shows and what a check lists (`do_trace`) is a crate below the definitions and
//! the transcripts, so that neither stands on a machine.
#![tactic(auto)]

mod outcome;

pub use outcome::{Entry, EntryList, NodeLine, NodeLines, ObjLine, ObjLines, Outcome, Snapshot};
