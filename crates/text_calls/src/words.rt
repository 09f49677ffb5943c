//! Rows of numbers, names, types and the words of a command.

mod commands;
mod names;
mod numbers;
mod signatures;

use crate::words::commands::CommandCalls;
use crate::words::names::NameCalls;
use crate::words::numbers::NumberCalls;
use crate::words::signatures::SignatureCalls;
use call_rows::play_file;
use do_base::Text;
use std::test::Fail;

/// Plays the rows of what texts are made of.
pub(crate) fn play_words(rt: &HostRuntime, report: &mut Text) -> Result<(), Fail> {
    let alloc = rt.alloc();
    play_file(rt, "numbers.rows", NumberCalls::new(alloc), report)?;
    play_file(rt, "names.rows", NameCalls::new(alloc), report)?;
    play_file(rt, "signatures.rows", SignatureCalls::new(alloc), report)?;
    play_file(rt, "commands.rows", CommandCalls::new(alloc), report)
}
