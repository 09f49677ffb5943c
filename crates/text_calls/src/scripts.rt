//! Rows of the texts of methods, and of the acts of their scripts.

mod acts;
mod changes;
mod codes;
mod frames;
mod names;
mod programs;

use crate::scripts::acts::ScriptCalls;
use crate::scripts::codes::CodeCalls;
use call_rows::play_file;
use do_base::Text;
use std::test::Fail;

/// The files of acts, each with the invocations of one subject.
const ACTS: [&str; 8] = [
    "moves.rows",
    "arithmetic.rows",
    "comparing.rows",
    "control.rows",
    "lists.rows",
    "limits.rows",
    "messages.rows",
    "changes.rows",
];

/// Plays the rows of the assembler, and those of acts.
pub(crate) fn play_scripts(rt: &HostRuntime, report: &mut Text) -> Result<(), Fail> {
    let alloc = rt.alloc();
    play_file(rt, "codes.rows", CodeCalls::new(alloc)?, report)?;
    for name in ACTS {
        play_file(rt, name, ScriptCalls::new(alloc)?, report)?;
    }
    Ok(())
}
