//! The program. `replay WORLD SCHEDULE` replays a schedule over a world and writes its transcript,
//! and `leaks WORLD SCHEDULE` writes what nothing can reach after it. `weave WORLD RECORD..` writes
//! one schedule of the records of nodes, and `upgrade SCHEDULE` a schedule of version 1 anew. `make
//! NUMBER COUNT` writes a summary of a generated schedule. `node PORT WORLD STARTS TURNS` serves a
//! node over TCP, `lab PLAN` starts nodes as processes, and `--help` shows the forms.
//!
//! It stands on do_node, whose call decides all that is answered and written, and on do_host for
//! the files, the output, the words, the sockets and the processes. It adds the lines on standard
//! error and the exit status alone.
#![tactic(auto)]

mod advice;

use do_advice::Watched;
use do_base::{Sink, Texts, Word};
use do_host::{FileShelf, ProcSpawner, StdSink, TcpLink, program_path, read_words};
use do_node::{Status, run};
use std::process::ExitCode;

/// How long a poll of the sockets waits at most, in microseconds.
const WAIT: u64 = 500;

/// How many bytes are taken once and given back before anything else.
const LARGE: usize = 8_388_608;

/// Lets the C library keep up to twice `LARGE` bytes that were given back. Else it gives the heap's
/// end back with each long text, and takes it again for the next.
fn keep_heap(rt: &HostRuntime) {
    // Its limit is twice the largest piece that it gave back to the system.
    let _ = Vec::<u8>::with_capacity(rt.alloc(), LARGE);
}

fn main(rt: HostRuntime) -> ExitCode {
    keep_heap(&rt);
    let Ok(words) = read_words(rt.alloc(), &rt) else {
        advice::tell(&rt, &Status::Memory, &[]);
        return ExitCode::from(Status::Memory.number());
    };
    let sink = StdSink::new(rt.stdout());
    let mut out = Watched::new(sink, writes_record(words.as_slice()));
    let status = answer(rt, &words, &mut out);
    if !matches!(&status, Status::Ok) {
        advice::tell(&rt, &status, words.as_slice());
    }
    advice::tell_raised(&rt, out.raised());
    ExitCode::from(status.number())
}

/// Whether these words ask for the record of a node.
fn writes_record(words: &[Word]) -> bool {
    matches!(words, [name, ..] if name.is(b"node"))
}

/// What the words of the command line come to, over the files, an output, the sockets and the
/// processes of the system.
fn answer<K: Sink>(rt: HostRuntime, words: &Texts, out: &mut K) -> Status {
    let alloc = rt.alloc();
    let mut shelf = FileShelf::new(alloc, rt);
    let mut link = TcpLink::new(alloc, rt, WAIT);
    let mut spawn = ProcSpawner::new(alloc, rt, program_path(&rt));
    run(
        alloc,
        words.as_slice(),
        &mut shelf,
        out,
        &mut link,
        &mut spawn,
    )
}
