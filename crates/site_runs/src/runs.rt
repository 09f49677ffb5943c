//! Runs of a site, in a file.
//!
//! A run begins with `= NAME`, at a site before its first input. Each line behind `> ` hands
//! something to the site; behind it stands what the site then answers, sends and shows, and behind
//! `> check` what is listed of it. Behind these lines stand those behind `? `. Each is tried: it is
//! handed to a new site, to which those behind `> ` were handed, and behind it those behind `< `
//! are.

use crate::playing::push_line;
use crate::sites::{Opening, play_new};
use do_base::Text;
use do_grammar::line_of;
use std::test::Fail;

/// Tries each line of a run that is to be tried, and adds it with what comes of it.
fn try_each(opening: &Opening, run: &[u8], last: &mut Text, out: &mut Text) -> Result<(), Fail> {
    let mut rest = run;
    for _line in 0..run.len() {
        let Some((line, _, behind)) = line_of(rest) else {
            return Ok(());
        };
        rest = behind;
        if let [b'?', b' ', said @ ..] = line {
            push_line(out, line)?;
            play_new(opening, run, Some(said), last, out)?;
        }
    }
    Ok(())
}

/// Plays a run, and adds its lines with what comes of them.
fn push_run(opening: &Opening, run: &[u8], out: &mut Text) -> Result<(), Fail> {
    let mut last = Text::new(out.allocator());
    play_new(opening, run, None, &mut last, out)?;
    try_each(opening, run, &mut last, out)
}

/// What stands behind the first run of a file.
fn behind_run(runs: &[u8]) -> &[u8] {
    let mut rest = runs;
    for _line in 0..runs.len() {
        let Some((_, _, behind)) = line_of(rest) else {
            return rest;
        };
        rest = behind;
        if let [b'=', ..] = rest {
            return rest;
        }
    }
    rest
}

/// Plays the runs of a file, and adds their lines with what comes of them.
pub(crate) fn push_runs(opening: &Opening, runs: &[u8], out: &mut Text) -> Result<(), Fail> {
    let mut rest = runs;
    for _run in 0..runs.len() {
        let behind = behind_run(rest);
        let end = rest.len().saturating_sub(behind.len());
        push_run(opening, rest.get(..end).unwrap_or(&[]), out)?;
        rest = behind;
        if rest.is_empty() {
            return Ok(());
        }
    }
    Ok(())
}

/// How many lines of a file are handed over or tried.
pub(crate) fn handed_over(runs: &[u8]) -> u64 {
    let mut count: u64 = 0;
    for line in runs.split(|byte| *byte == b'\n') {
        if let [b'>' | b'?', b' ', ..] = line {
            count = count.saturating_add(1);
        }
    }
    count
}
