//! Hands one site what its peers send, also such as lie, and compares what it answers, sends and
//! shows with what it should. With the word `memory` it only plays one file. A call for which
//! memory ran out is made again, at a site that must be listed as before.
//!
//! It stands on do_site, and on how schedules are written. Runs are files, in which each line that
//! is handed over is followed by what comes of it, worked out by hand or by another program. A file
//! of which something else comes is printed as it comes; behind it stands how many lines of it were
//! handed over.
//!
//! It is a program of its own since it stands on sites alone: it is proved beside what stands on
//! them.
#![tactic(auto)]

mod again;
mod inputs;
mod player;
mod playing;
mod runs;
mod sites;
mod told;

use crate::runs::{handed_over, push_runs};
use crate::sites::{Opening, opening_in};
use do_base::Text;
use do_grammar::push_dec;
use std::alloc::AllocError;
use std::io::Write;
use std::test::Fail;
use std::{env, fs};

/// The file in which each call may be made again.
const ONE: &str = "passing_on.runs";

/// The other files.
const OTHERS: [&str; 3] = [
    "lying_peers.runs",
    "hostile_frames.runs",
    "heavy_messages.runs",
];

/// Reports what came of a file, where that is not what it has, and how many lines were handed over.
fn report_file(report: &mut Text, name: &str, runs: &[u8], came: &Text) -> Result<(), AllocError> {
    if !came.is(runs) {
        report.push_bytes(came.as_slice())?;
    }
    report.push_bytes(name.as_bytes())?;
    report.push_bytes(b": ")?;
    push_dec(report, handed_over(runs))?;
    report.push_bytes(b" lines\n")
}

/// Plays the runs of a file, and reports on them.
fn play_runs(opening: &Opening, name: &str, runs: &[u8], report: &mut Text) -> Result<(), Fail> {
    let mut came = Text::new(report.allocator());
    push_runs(opening, runs, &mut came)?;
    Ok(report_file(report, name, runs, &came)?)
}

/// Plays the runs of the file of a name.
fn play_file(
    rt: &HostRuntime,
    opening: &Opening,
    name: &str,
    report: &mut Text,
) -> Result<(), Fail> {
    let runs = fs::read(rt, name)?;
    play_runs(opening, name, runs.as_slice(), report)
}

/// Whether a word of the command line is `memory`.
fn is_for_memory(rt: &HostRuntime) -> Result<bool, Fail> {
    for word in env::args(rt)?.skip(1) {
        if word.as_str() == "memory" {
            return Ok(true);
        }
    }
    Ok(false)
}

/// Plays the one file, and the others but for the word `memory`.
fn play_all(rt: &HostRuntime, opening: &Opening, report: &mut Text) -> Result<(), Fail> {
    play_file(rt, opening, ONE, report)?;
    if is_for_memory(rt)? {
        return Ok(());
    }
    for name in OTHERS {
        play_file(rt, opening, name, report)?;
    }
    Ok(())
}

/// What the runs of all files come to, as a report.
fn reported(rt: &HostRuntime, opening: &Opening) -> Result<Text, Fail> {
    let mut report = Text::new(rt.alloc());
    match play_all(rt, opening, &mut report) {
        Ok(()) => Ok(report),
        Err(fail) => Err(fail),
    }
}

fn main(rt: HostRuntime) -> Result<(), Fail> {
    let report = reported(&rt, &opening_in(&rt, "peers.world")?)?;
    rt.stdout().write_all(report.as_slice())?;
    Ok(())
}
