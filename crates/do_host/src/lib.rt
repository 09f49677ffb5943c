//! The outside as it is: the files of the current folder, an output, the words of the command line,
//! sockets, and children that run this program.
//!
//! It stands on the traits of do_base for a shelf and a sink, and on the link of do_sockets and the
//! spawner of do_children. It promises their clauses over the real system, of which no contract can
//! see what a file, an output or a socket holds.
//!
//! The adapters to real files and standard output stand in a crate below the program: a change
//! of the top call then does not prove them again.
//!
//! An interrupted write is tried 1,000 times before it is a fault. Where the system tells that
//! it has no memory for a file, the fetch answers `Memory` and counts no fault. Of a word over
//! 131,072 bytes, which this system never gives, the first 131,072 are taken.
#![tactic(auto)]

mod file_shelf;
mod program;
mod std_sink;
mod words;

pub use do_children::ProcSpawner;
pub use do_sockets::TcpLink;
pub use file_shelf::{FileShelf, read_within};
pub use program::program_path;
pub use std_sink::StdSink;
pub use words::read_words;
