//! Plays rows of commands, each with its answer beside it: whole runs of the top call, over files,
//! links, children and outputs in memory that fail where a row says so.
//!
//! It stands on do_node and on how rows are played, and promises nothing of its own. The rows are
//! files; what they expect was worked out by hand or by another program. A row whose answer is
//! another one is printed with it; at the end of each file stands how many rows it has. With the
//! word `memory` it plays one file alone. A command for which memory ran out is run again, and what
//! it wrote before must be the front of what it then writes.
//!
//! A transcript in a file has its schedule in its lines. Those that are compared with all that is
//! sent have each frame byte for byte. Behind them, the same schedules and generated ones are
//! played over the network and over the one machine of the definitions. Both must show the same and
//! leave the same lost. The schedules over `edges.world` and those behind them tell rules apart
//! that few others do: each differs where one rule is another.
//!
//! Five rules can show in no transcript, since no state that a machine comes to tells them apart.
//! An answer which does not fit raises Type. A name lent twice under one token is asked for once.
//! Calls given up are forgotten when their peer's end closes, and such a close settles no lend of
//! that peer. The first call and the first token have certain numbers.
//!
//! A site asks for an act only where its own top invocation runs, and once for each step of it. So
//! the acts that each node's behaviour counts are the instructions that ran there, which were
//! counted by hand.
#![tactic(auto)]

mod calls;
mod counting;
mod counts;
mod files;
mod links;
mod machine;
mod narrow;
mod opening;
mod outside;
mod spawners;
mod told;
mod transcripts;
mod words;

use crate::calls::RunCalls;
use call_rows::play_file;
use do_base::Text;
use std::env;
use std::io::Write;
use std::test::Fail;

/// The file that is played alone with the word `memory`.
const ONE: &str = "memory.rows";

/// The other files.
const OTHERS: [&str; 13] = [
    "words.rows",
    "refusals.rows",
    "texts.rows",
    "leaks.rows",
    "weave.rows",
    "make.rows",
    "links.rows",
    "nodes.rows",
    "plans.rows",
    "transcripts.rows",
    "machine.rows",
    "session.rows",
    "acts.rows",
];

/// Whether a word of the command line is `memory`.
fn is_for_memory(rt: &HostRuntime) -> Result<bool, Fail> {
    for word in env::args(rt)?.skip(1) {
        if word.as_str() == "memory" {
            return Ok(true);
        }
    }
    Ok(false)
}

/// Plays the rows of the other files.
fn play_others(rt: &HostRuntime, report: &mut Text) -> Result<(), Fail> {
    for name in OTHERS {
        play_file(rt, name, RunCalls::new(*rt)?, report)?;
    }
    Ok(())
}

/// Plays the rows of all files, or of the one.
fn play_all(rt: &HostRuntime, report: &mut Text) -> Result<(), Fail> {
    play_file(rt, ONE, RunCalls::new(*rt)?, report)?;
    if !is_for_memory(rt)? {
        play_others(rt, report)?;
    }
    Ok(())
}

fn main(rt: HostRuntime) -> Result<(), Fail> {
    let mut report = Text::new(rt.alloc());
    play_all(&rt, &mut report)?;
    rt.stdout().write_all(report.as_slice())?;
    Ok(())
}
