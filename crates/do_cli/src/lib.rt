//! The words of the command line: the forms that they may have, and the command that they ask for.
//!
//! It stands on do_base for words and on do_grammar for their numbers. It promises that words of a
//! form are read as its command, and that all others are refused at the first word with which no
//! form goes on. The text of `--help` is that of the same table of forms. The forms are this
//! project's own.
#![tactic(auto)]

mod command;
mod fault;
mod form;
mod help;
mod words;

pub use command::{Command, Words};
pub use fault::WordFault;
pub use help::{push_help, push_version};
pub use words::read_words;
