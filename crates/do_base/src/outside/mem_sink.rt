//! A sink that keeps its bytes in memory, and whose faults are listed beforehand.
ghost use Rattle.std.specs.Prelude.{◌≡◌, ◌<◌, ◌≤◌, ◌↔◌, [], ℕ, List, length, take, Some, Ok, IfOk};
ghost use Rattle.std.specs.Prelude.{OnErr, IsErrOf};
ghost use Rattle.do_base.specs.outside.{Bytes.with_more, Causes.{next_count, Rose}};
ghost use Rattle.do_base.specs.outside.InMemory.{FailsNext, after_put};

use crate::outside::sink::{CallList, PutFail, Sink};
use crate::values::text::Text;
use std::alloc::{AllocError, Global};
use std::marker::Model;

/// A sink in memory, whose listed puts fail.
///
/// It tells all that was put. Contracts see it as these bytes, the numbers of the puts that fail,
/// counted from 1, and the counts of puts and of faults so far. The form is this project's own.
#[derive(Debug, Drop)]
pub struct MemSink {
    bytes: Text,
    fail: CallList,
    calls: u64,
    faults: u64,
}

impl Model for MemSink {
    ghost use Rattle.do_base.specs.outside.InMemory.{SinkState};

    ghost Value = { SinkState };

    ghost view = { λ s.
        record { bytes = s.bytes; fail = s.fail; calls = s.calls; faults = s.faults } };
}

impl MemSink {
    /// An empty sink, before its first put. It takes no memory of its own so far.
    pub fn new(alloc: Global, fail: CallList) -> Result<MemSink, AllocError>
        ensures { result ≡ Ok (record { bytes = []; fail = fail; calls = 0; faults = 0 }) }
    {
        Ok(MemSink {
            bytes: Text::new(alloc),
            fail,
            calls: 0,
            faults: 0,
        })
    }

    /// The bytes that were put so far.
    pub fn bytes(&self) -> &Text
        ensures { result.now ≡ self.now.bytes }
    {
        &self.bytes
    }
}

impl Sink for MemSink {
    ghost written = { λ s. Some s.bytes };

    ghost faults = { λ s. s.faults };

    /// Writes the whole piece.
    ///
    /// `Failed` comes exactly if this put is listed. A put that memory ran out in is not counted,
    /// and leaves all as it was.
    fn put(&mut self, piece: &[u8]) -> Result<usize, PutFail>
        requires { 0 < length piece.now }
        ensures count { IfOk result (λ n. (0 < n) × (n ≤ length piece.now)) }
        ensures ok { IfOk result
            (λ n. Some self.new.bytes ≡ with_more (Some self.old.bytes) (take n piece.now)) }
        ensures err { OnErr result (Some self.new.bytes ≡ Some self.old.bytes) }
        ensures later { self.old.faults ≤ self.new.faults }
        ensures failed { IsErrOf result PutFail.Failed → Rose self.old.faults self.new.faults }

        // The whole piece is written.
        ensures whole { IfOk result (λ n. n ≡ length piece.now) }

        // One more put, unless memory ran out, and the list of those that fail stays.
        ensures counted { ¬ (IsErrOf result PutFail.Memory)
            → self.new ≡ after_put self.old self.new.bytes self.new.faults }
        ensures memory { IsErrOf result PutFail.Memory → self.new ≡ self.old }

        // It fails exactly where it is listed, and only then is there a fault.
        ensures listed { IsErrOf result PutFail.Failed ↔ FailsNext self.old.fail self.old.calls }
        ensures fault { FailsNext self.old.fail self.old.calls
            → self.new.faults ≡ next_count self.old.faults }
        ensures no_fault { ¬ (FailsNext self.old.fail self.old.calls)
            → self.new.faults ≡ self.old.faults }
    {
        let calls = self.calls.saturating_add(1);
        if self.fail.contains(&calls) {
            self.calls = calls;
            self.faults = self.faults.saturating_add(1);
            return Err(PutFail::Failed);
        }
        self.bytes.push_bytes(piece)?;
        self.calls = calls;
        Ok(piece.len())
    }
}
