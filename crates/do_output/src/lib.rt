//! Output that is collected into larger pieces before it is written.
//!
//! It stands on the texts and the sink of do_base. It promises that the bytes sent so far, followed
//! by the bytes that wait, are the bytes that were made, so any fault leaves a prefix written.
//!
//! An outside tells a list of its calls, or nothing, and may stop telling: `TellsMore` says
//! what is told behind a call. A shelf of real files tells nothing and owes nothing. A count of
//! 64 bits that is at its end is a reason to stop, so no caller needs a bound.
#![tactic(auto)]

mod output;

pub use output::{flush, flush_if_long};
