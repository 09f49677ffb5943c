//! Payloads that are not read yet.
ghost use Rattle.std.specs.Prelude.{◌≡◌, drop};

use bytes::Bytes;
use do_base::Text;
use std::marker::Model;

/// What the bytes of a payload stand in.
#[derive(Debug, Drop)]
pub enum Held {
    /// A cut of the bytes of a stream.
    Cut(Bytes),
    /// A text, behind so many of its bytes.
    Behind(Text, usize),
}

/// The bytes of a payload, which contracts see as the list of them.
///
/// They are shared with the stream or with the text that they came in.
#[derive(Debug, Drop)]
pub struct Payload {
    held: Held,
}

impl Model for Payload {
    ghost use Rattle.std.specs.Prelude.{List, ℕ};
    ghost use Rattle.do_frames.specs.Unread.{held_bytes};

    ghost Value = { List ℕ };

    ghost view = { λ p. held_bytes p.held };
}

/// The bytes behind so many. There is none where there are no more.
fn behind(bytes: &[u8], begins: usize) -> &[u8]
    ensures { result.now ≡ drop begins bytes.now }
{
    if begins >= bytes.len() {
        return &[];
    }
    &bytes[begins..]
}

impl Payload {
    /// A cut of the bytes of a stream.
    pub fn cut(bytes: Bytes) -> Payload
        ensures { result ≡ bytes }
    {
        Payload {
            held: Held::Cut(bytes),
        }
    }

    /// The bytes of a text behind so many. There is none where the text has no more.
    pub fn behind(text: Text, begins: usize) -> Payload
        ensures { result ≡ drop begins text }
    {
        Payload {
            held: Held::Behind(text, begins),
        }
    }

    /// The bytes, to be read.
    pub fn as_slice(&self) -> &[u8]
        ensures { result.now ≡ self.now }
    {
        match &self.held {
            Held::Cut(bytes) => bytes.as_slice(),
            Held::Behind(text, begins) => behind(text.as_slice(), *begins),
        }
    }
}
