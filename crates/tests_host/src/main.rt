//! Plays what reaches outside: real files, outputs, the words of a command line, and sockets of
//! this machine. It writes a line for each case, behind `NOT` where the case does not hold.
//!
//! It stands on do_host and do_link, and calls public functions alone. What each case must come to
//! was worked out by hand.
#![tactic(auto)]

mod faulty;
mod files;
mod outputs;
mod reading;
mod sockets;
mod strangers;
mod words;

use crate::files::{fetches_a_large_file, fetches_within_the_limit};
use crate::outputs::{puts_again_after_a_signal, puts_what_a_file_takes};
use crate::reading::reads_again_after_a_signal;
use crate::sockets::{
    a_peer_that_never_listens_ends, a_send_waits_for_a_listener, links_hear_each_other,
};
use crate::strangers::strangers_keep_no_peer_out;
use crate::words::reads_words_as_bytes;
use std::io::Write;
use std::test::Fail;

/// Writes what a case shows, behind `NOT` where it does not hold.
fn tell(rt: &HostRuntime, holds: bool, what: &str) -> Result<(), Fail> {
    let mut out = rt.stdout();
    if !holds {
        out.write_all(b"NOT ")?;
    }
    out.write_all(what.as_bytes())?;
    out.write_all(b"\n")?;
    Ok(())
}

/// Plays the cases of files, outputs and words.
fn play_files(rt: HostRuntime) -> Result<(), Fail> {
    let holds = fetches_within_the_limit(rt)?;
    tell(&rt, holds, "a file is fetched within the limit alone")?;
    let holds = fetches_a_large_file(rt)?;
    tell(&rt, holds, "a large file is fetched whole")?;
    let holds = puts_what_a_file_takes(rt)?;
    tell(&rt, holds, "an output takes what it has room for")?;
    let holds = reads_again_after_a_signal(rt.alloc())?;
    tell(&rt, holds, "a read is tried again after a signal alone")?;
    let holds = puts_again_after_a_signal(rt.alloc())?;
    tell(&rt, holds, "a write is tried again after a signal alone")?;
    let holds = reads_words_as_bytes(rt.alloc())?;
    tell(&rt, holds, "the words of a command line are bytes")
}

/// Plays the cases of links over sockets.
fn play_sockets(rt: HostRuntime) -> Result<(), Fail> {
    let holds = links_hear_each_other(rt)?;
    tell(&rt, holds, "links over sockets hear each other")?;
    let holds = strangers_keep_no_peer_out(rt)?;
    tell(&rt, holds, "strangers keep no peer out")?;
    let holds = a_send_waits_for_a_listener(rt)?;
    tell(
        &rt,
        holds,
        "what is sent to a peer that listens later is heard by it",
    )?;
    let holds = a_peer_that_never_listens_ends(rt)?;
    tell(&rt, holds, "a peer that never listens is told as ended")
}

fn main(rt: HostRuntime) -> Result<(), Fail> {
    play_files(rt)?;
    play_sockets(rt)
}
