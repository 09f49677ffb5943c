//! An output in which exceptions are counted.
ghost use Rattle.std.specs.Prelude.{◌≡◌};

use do_base::{PutFail, Sink};
use memchr::memchr;

/// What a line begins with that tells of a start which an exception ended.
const WORD: &[u8] = b"raise ";

/// How many lines begin with the word, of bytes that come piece by piece.
#[derive(Drop)]
struct Raises {
    /// What the last line wants to begin with the word; none once it does or cannot.
    wanted: Option<&'static [u8]>,
    count: u64,
}

impl Raises {
    /// More of the last line.
    fn see(&mut self, part: &[u8]) {
        let Some(wanted) = self.wanted else {
            return;
        };
        self.wanted = wanted.strip_prefix(part);
        if part.starts_with(wanted) {
            self.wanted = None;
            self.count = self.count.saturating_add(1);
        }
    }

    /// More bytes. Only the front of each line is looked at.
    fn see_all(&mut self, bytes: &[u8]) {
        let mut rest = bytes;
        while let Some(end) = memchr(b'\n', rest) {
            self.see(&rest[..end]);
            self.wanted = Some(WORD);
            rest = &rest[end + 1..];
        }
        self.see(rest);
    }
}

/// A sink that hands on all to another, and counts the exceptions in the record of a node.
///
/// Contracts see it as the sink that it hands on to. No clause says what it counts.
#[derive(Drop)]
pub struct Watched<K> {
    sink: K,
    raises: Raises,
    /// Whether it is to count.
    is_record: bool,
}

impl<K> Watched<K> {
    /// A sink that counts the exceptions of a record, if what is written is one.
    pub fn new(sink: K, is_record: bool) -> Self
        ensures { result.sink ≡ sink }
    {
        let raises = Raises {
            wanted: Some(WORD),
            count: 0,
        };
        Watched {
            sink,
            raises,
            is_record,
        }
    }

    /// How many starts of the node an exception ended: lines of its record that begin with `raise`.
    pub fn raised(&self) -> u64 {
        self.raises.count
    }
}

impl<K: Sink> Sink for Watched<K> {
    ghost written = { λ s. K.written s.sink };

    ghost faults = { λ s. K.faults s.sink };

    fn put(&mut self, piece: &[u8]) -> Result<usize, PutFail> {
        let count = self.sink.put(piece)?;
        if self.is_record {
            self.raises.see_all(&piece[..count]);
        }
        Ok(count)
    }
}
