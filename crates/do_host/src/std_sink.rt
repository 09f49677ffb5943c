//! The sink over an output of the system.
ghost use Rattle.std.specs.Prelude.{◌≡◌, ◌<◌, ◌≤◌, [], length, take, Some, Err, IfOk, IfSome};
ghost use Rattle.std.specs.Prelude.{MatchOption, IsErrOf, OnOk, OnErr};
ghost use Rattle.std.specs.Io.KnownBytes.{Keeps, Appends, WriteAppends};
ghost use Rattle.do_base.specs.outside.{Bytes.with_more, Causes.{next_count, Rose}};

use do_base::{PutFail, Sink};
use do_taken::{Piece, Taken};
use std::io::{ErrorKind, Write};
use std::marker::Model;

/// An output of the system, as standard output, with no buffer between.
///
/// Contracts see it as the output, a count of faults, which are puts that answered `Failed`, and
/// the bytes that the output took: those that its writes counted, in order. It tells these bytes.
/// No contract can see what an output of the system makes of them; one in memory may tell. The form
/// is this project's own.
#[derive(Drop)]
pub struct StdSink<W: Write> {
    out: W,
    faults: u64,
    taken: Taken,
}

impl<W: Write> Model for StdSink<W> {
    ghost use Rattle.do_host.specs.Counting.{Counting, counting_code};

    ghost Value = { Counting W };

    ghost coded = { counting_code W.code };

    ghost view = { λ s. record { output = s.out; faults = s.faults; taken = s.taken.bytes } };
}

impl<W: Write> StdSink<W> {
    /// A sink before its first put.
    pub fn new(out: W) -> StdSink<W>
        ensures { result ≡ record { output = out; faults = 0; taken = [] } }
    {
        StdSink {
            out,
            faults: 0,
            taken: Taken::new(),
        }
    }
}

// How often a put that a signal interrupted begins again.
const TRIES: u32 = 1_000;

// Writes some of a piece from its front. Gives how many bytes, at least one; none after an error.
#[tactic(auto, using(crate::proofs::KnownBytes::known_facts))]
fn write_some<W: Write>(out: &mut W, piece: &[u8]) -> Option<usize>
    ensures count { IfSome result (λ n. (0 < n) × (n ≤ length piece.now)) }
    ensures bytes { MatchOption result (Keeps (W.contents out.old) (W.contents out.new))
        (λ n. Appends (W.contents out.old) (W.contents out.new) (take n piece.now)) }
{
    for _ in 0..TRIES {
        match out.write(piece) {
            Ok(0) => return None,
            Ok(count) => return Some(count),
            Err(e) if e.kind() == ErrorKind::Interrupted => {}
            Err(_) => return None,
        }
    }
    None
}

impl<W: Write> Sink for StdSink<W> {
    ghost written = { λ s. Some s.taken };

    ghost faults = { λ s. s.faults };

    /// Writes some of a piece by one call of the system.
    ///
    /// `Failed` is for an output that is closed or full, that takes no byte, or that signals
    /// interrupt 1,000 times in a row. It never answers `Memory`.
    fn put(&mut self, piece: &[u8]) -> Result<usize, PutFail>
        requires { 0 < length piece.now }
        ensures count { IfOk result (λ n. (0 < n) × (n ≤ length piece.now)) }
        ensures ok { IfOk result
            (λ n. Some self.new.taken ≡ with_more (Some self.old.taken) (take n piece.now)) }
        ensures err { OnErr result (Some self.new.taken ≡ Some self.old.taken) }
        ensures later { self.old.faults ≤ self.new.faults }
        ensures failed { IsErrOf result PutFail.Failed → Rose self.old.faults self.new.faults }

        // The bytes that are counted were written from the piece's front, and no others.
        ensures bytes { WriteAppends (W.contents self.old.output)
            (W.contents self.new.output) result piece.now }

        // The count of faults rises exactly where the answer is `Failed`, the only error.
        ensures fault { OnErr result
            ((result ≡ Err PutFail.Failed) × (self.new.faults ≡ next_count self.old.faults)) }
        ensures no_fault { OnOk result (self.new.faults ≡ self.old.faults) }
    {
        match write_some(&mut self.out, piece) {
            Some(count) => {
                self.taken = self.taken.with(&Piece {
                    bytes: piece,
                    count,
                });
                Ok(count)
            }
            None => {
                self.faults = self.faults.saturating_add(1);
                Err(PutFail::Failed)
            }
        }
    }
}
