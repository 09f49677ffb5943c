//! Children that run a program through `sh`.
ghost use Rattle.std.specs.Prelude.{◌≡◌, ◌+◌, ◌<◌, ◌≤◌, OnOk, Some, vec_len};

use do_base::{NodeId, Word};
use do_lab::{ChildId, SpawnFail, Spawner};
use do_sockets::{Deadline, connect_once};
use do_told::{Child as Told, Children};
use std::alloc::Global;
use std::net::Net;
use std::process::{Child, Command, Processes, Stdio};
use std::time::{Clock, Duration};
use std::{io, str, thread};

/// How often the port of a new child is tried.
const TRIES: u32 = 100_000;

/// How many microseconds a start pauses before it tries again.
const PAUSE: u64 = 100;

/// For how many microseconds a start tries.
const START_TIME: u64 = 30_000_000;

/// What `sh` does with its words: the path of the program, a command, and the port. The words are
/// parameters, and no part of this text.
const SCRIPT: &str = "p=$3; exec \"$@\" >\"$p.record\"";

/// Starts a program through `sh`, which sends its standard output to the file `PORT.record`.
///
/// A start answers once the port accepts a connection, the child has ended, or 100,000 tries or
/// half a minute were spent. It is `Failed` only where the program could not be started.
///
/// It tells each start and each wait. No contract can see what a process makes of them.
#[derive(Drop)]
pub struct ProcSpawner<R: Processes> {
    rt: R,
    alloc: Global,
    program: Option<String>,
    children: Vec<Child<R::Started>>,
    told: Children,
    faults: u64,
}

impl<R: Processes + Drop> ProcSpawner<R> {
    /// A spawner of the program at a path, before its first start. With no path each start fails.
    pub fn new(alloc: Global, rt: R, program: Option<String>) -> Self {
        ProcSpawner {
            rt,
            alloc,
            program,
            children: Vec::new(alloc),
            told: Children::new(),
            faults: 0,
        }
    }
}

/// Starts the program with these words.
fn start_child<R: Processes>(
    rt: &R,
    alloc: Global,
    program: &str,
    words: &[Word],
) -> io::Result<Child<R::Started>> {
    let mut command = Command::new(alloc, "sh")?;
    command.arg("-c")?.arg(SCRIPT)?.arg("sh")?.arg(program)?;
    for word in words {
        match str::from_utf8(word.as_slice()) {
            Ok(text) => {
                command.arg(text)?;
            }
            Err(_) => return Err(io::Error::from(io::ErrorKind::InvalidInput)),
        }
    }
    command.stdin(Stdio::null());
    command.spawn(rt)
}

/// Tries a port until it accepts a connection, the child has ended, or the tries are spent.
fn await_port<R: Processes + Net + Clock>(rt: &R, child: &mut Child<R::Started>, port: NodeId) {
    let deadline = Deadline::after(rt, START_TIME);
    for _ in 0..TRIES {
        if connect_once(rt, port).is_some() || matches!(child.try_wait(), Ok(Some(_))) {
            return;
        }
        if deadline.has_passed(rt) {
            return;
        }
        thread::sleep(rt, Duration::from_micros(PAUSE));
    }
}

/// The port that the second word is.
fn port_of(words: &[Word]) -> Option<NodeId> {
    let word = words.get(1)?;
    match str::from_utf8(word.as_slice()) {
        Ok(text) => NodeId::new(text.parse::<u16>().ok()?),
        Err(_) => None,
    }
}

impl<R: Processes + Net + Clock> ProcSpawner<R> {
    /// Starts a child, and waits for its port.
    fn start_one(&mut self, words: &[Word]) -> io::Result<()>
        ensures faults { self.new.faults ≡ self.old.faults }
        ensures told { self.new.told ≡ self.old.told }
        ensures kept { vec_len self.old.children ≤ vec_len self.new.children }
        ensures added { OnOk result (vec_len self.new.children ≡ vec_len self.old.children + 1) }
    {
        let Some(program) = &self.program else {
            return Err(io::Error::from(io::ErrorKind::NotFound));
        };
        self.children.reserve(1)?;
        let mut child = start_child(&self.rt, self.alloc, program.as_str(), words)?;
        if let Some(port) = port_of(words) {
            await_port(&self.rt, &mut child, port);
        }
        self.children.push(child)?;
        Ok(())
    }
}

impl<R: Processes + Net + Clock> Spawner for ProcSpawner<R> {
    ghost told = { λ s. Some s.told.list };

    ghost faults = { λ s. s.faults };

    ghost is_running = { λ s n. n < vec_len s.children };

    ghost next_child = { λ s. vec_len s.children };

    fn start(&mut self, words: &[Word]) -> Result<ChildId, SpawnFail> {
        let number = self.children.len() as u64;
        match self.start_one(words) {
            Ok(()) => {
                self.told = self.told.with(&Told::Started(words, Some(ChildId(number))));
                Ok(ChildId(number))
            }
            Err(e) if e.kind() == io::ErrorKind::OutOfMemory => Err(SpawnFail::Memory),
            Err(_) => {
                self.faults = self.faults.saturating_add(1);
                self.told = self.told.with(&Told::Started(words, None));
                Err(SpawnFail::Failed)
            }
        }
    }

    fn ended(&mut self, child: ChildId) -> Result<i32, SpawnFail> {
        match self.children[child.0 as usize].wait() {
            Ok(status) => {
                let status = status.code().unwrap_or(-1);
                self.told = self.told.with(&Told::Waited(child, Some(status)));
                Ok(status)
            }
            Err(_) => {
                self.told = self.told.with(&Told::Waited(child, None));
                self.faults = self.faults.saturating_add(1);
                Err(SpawnFail::Failed)
            }
        }
    }
}
