//! What the program does behind one call: the words of a command line go in, and a text and a
//! status come out.
//!
//! It stands on the machine, the readers of texts and the outside as traits. It promises what the
//! call answers for every input, and what each command writes. Of a schedule over a world that is
//! its transcript, what it came to in numbers, or what nothing can reach after it. Other commands
//! write the schedule that records are woven to, a schedule written anew, the record of a node that
//! is served, or how the children of a plan ended.
//!
//! The top call is a library (`do_node`), so that tests call it; the program (`nukwashe`) is
//! `main` alone.
#![tactic(auto)]

mod answering;
mod call;
mod commands;
mod leaking;
mod making;
mod networks;
mod records;
mod replaying;
mod weaving;
mod woven_net;

pub use call::run;
pub use do_given::Status;
