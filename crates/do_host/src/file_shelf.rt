//! The shelf of real files.
ghost use Rattle.std.specs.Prelude.{◌≡◌, ◌+◌, ◌^◌, ◌<◌, ◌≤◌, ◌⊎◌, ◌↔◌, None, IfSome, IsErrOf};
ghost use Rattle.std.specs.IoError.{error_kind};
ghost use Rattle.do_base.specs.outside.{Causes.next_count, Files.FetchCause};
ghost use Rattle.do_host.specs.Reading.{KeepsLimit, TellsOf};

use do_base::{FetchFail, Shelf, Text, Word};
use std::alloc::Global;
use std::fs::{File, Files};
use std::io::{Error, ErrorKind, Read};
use std::marker::Model;
use std::str;

/// The files that paths name, those without a leading `/` from the current folder on.
///
/// It tells none of its files. Contracts see it as its count of faults: fetches that answered
/// `Failed`, a missing file's among them. The form is this project's own.
#[derive(Drop)]
pub struct FileShelf<R: Files> {
    rt: R,
    alloc: Global,
    faults: u64,
}

impl<R: Files> Model for FileShelf<R> {
    ghost use Rattle.std.specs.Prelude.{ℕ};

    ghost Value = { ℕ };

    ghost view = { λ s. s.faults };
}

impl<R: Files> FileShelf<R> {
    /// A shelf before its first fetch. It takes no memory yet.
    pub fn new(alloc: Global, rt: R) -> FileShelf<R>
        ensures { result ≡ 0 }
    {
        FileShelf {
            rt,
            alloc,
            faults: 0,
        }
    }
}

// What is answered for a file of more bytes than the limit.
fn too_long(limit: u64) -> FetchFail
    requires { limit < 2 ^ 63 }
    ensures { result ≡ FetchFail.Long (limit + 1) limit }
{
    FetchFail::Long {
        read: limit + 1,
        limit,
    }
}

// Why a file could not be opened or read.
fn fail_of(e: &Error) -> FetchFail
    ensures two { (result ≡ FetchFail.Memory) ⊎ (result ≡ FetchFail.Failed) }
    ensures memory { (result ≡ FetchFail.Memory) ↔ (error_kind e.now ≡ ErrorKind.OutOfMemory) }
{
    if e.kind() == ErrorKind::OutOfMemory {
        FetchFail::Memory
    } else {
        FetchFail::Failed
    }
}

/// The bytes that a file or another input has left, if they are at most `limit`.
///
/// `Long` is for more; one byte past the limit is read, and no further one. `Failed` and `Memory`
/// are for what the input answers. A read that a signal interrupts begins again.
#[tactic(auto, using(crate::proofs::KnownBytes::within_is_all))]
pub fn read_within<F: Read + Drop>(file: F, alloc: Global, limit: u64) -> Result<Text, FetchFail>
    requires { limit < 2 ^ 63 }
    ensures cause { KeepsLimit limit result }
    ensures bytes { IfSome (F.remaining file) (λ known. TellsOf limit known result) }
{
    let mut bytes = Vec::new(alloc);
    match file.take(limit + 1).read_to_end(&mut bytes) {
        Ok(count) if count as u64 > limit => Err(too_long(limit)),
        Ok(_) => Text::from_vec(alloc, bytes).map_err(|_| FetchFail::Memory),
        Err(e) => Err(fail_of(&e)),
    }
}

fn read_file(rt: &impl Files, alloc: Global, name: &Word, limit: u64) -> Result<Text, FetchFail>
    requires { limit < 2 ^ 63 }
    ensures { KeepsLimit limit result }
{
    let Ok(path) = str::from_utf8(name.as_slice()) else {
        return Err(FetchFail::Failed);
    };
    match File::open(rt, path) {
        Ok(file) => read_within(file, alloc, limit),
        Err(e) => Err(fail_of(&e)),
    }
}

impl<R: Files> Shelf for FileShelf<R> {
    ghost files = { λ _. None };

    ghost faults = { λ s. s };

    /// Reads the file at a path.
    ///
    /// `Failed` is for a file that is missing or is a folder, for a name that is not UTF-8, and for
    /// what the system refuses. `Memory` is for memory that ran out, the system's own too. A read
    /// that a signal interrupts begins again. At most one byte past the limit is read.
    fn fetch(&mut self, name: &Word, limit: u64) -> Result<Text, FetchFail>
        requires { limit < 2 ^ 63 }
        ensures cause { FetchCause None self.old self.new name.now limit result }
        ensures later { self.old ≤ self.new }

        // The count of faults rises exactly where the answer is `Failed`.
        ensures fault { IsErrOf result FetchFail.Failed → self.new ≡ next_count self.old }
        ensures no_fault { ¬ (IsErrOf result FetchFail.Failed) → self.new ≡ self.old }
    {
        let answer = read_file(&self.rt, self.alloc, name, limit);
        if matches!(&answer, Err(FetchFail::Failed)) {
            self.faults = self.faults.saturating_add(1);
        }
        answer
    }
}
