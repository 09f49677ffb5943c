//! All frames of a stream that comes in pieces.
ghost use Rattle.std.specs.Prelude.{◌≡◌, List, ℕ, take, OnOk, IfOk, IfErr};
ghost use Rattle.do_grammar.specs.Grammar.{IsProperFront};
ghost use Rattle.do_frames.specs.{declared.frame.RawFrame.RawFrame, Pieces.{joined_pieces, Splits}};
ghost use Rattle.do_frames.specs.{Pieces.{HasRead, FindsNoMore}, Streams.Front};

use crate::fault::StreamFault;
use crate::frame::{RawFrame, RawFrames};
use crate::stream::reader::Reader;
use do_base::{Items, Text};
use std::alloc::Global;

/// Takes every frame of which the whole came.
fn take_all(reader: &mut Reader, frames: &mut RawFrames) -> Result<(), StreamFault>
    ensures read { OnOk result ((fed : List ℕ) → HasRead fed frames.old reader.old
        → HasRead fed frames.new reader.new) }
    ensures none { OnOk result (IsProperFront (Front reader.new.greeted) reader.new.rest) }
    ensures bad { IfErr result (λ fault. (fed : List ℕ) → HasRead fed frames.old reader.old
        → FindsNoMore fed fault) }
{
    loop {
        match reader.next() {
            Ok(Some(frame)) => frames.push(frame)?,
            Ok(None) => return Ok(()),
            Err(fault) => return Err(fault),
        }
    }
}

/// The frames of a stream that comes in these pieces, which are those of the whole stream, however
/// it is cut.
///
/// What has come of a next frame is left out. A fault is that of `Reader::next` once some of the
/// pieces came, so no stream goes on with the byte that it tells; `Memory` comes where memory runs
/// out.
pub fn frames_of(alloc: Global, pieces: &[Text]) -> Result<RawFrames, StreamFault>
    ensures split { IfOk result (λ frames. (rest : List ℕ)
        × Splits (joined_pieces pieces.now) frames rest) }
    ensures only { IfOk result (λ frames. (others : List RawFrame) (rest : List ℕ)
        → Splits (joined_pieces pieces.now) others rest → frames ≡ others) }
    ensures bad { IfErr result (λ fault. (n : ℕ)
        × FindsNoMore (joined_pieces (take n pieces.now)) fault) }
{
    let mut reader = Reader::new(alloc);
    let mut frames = Items::new(alloc);
    for piece in pieces {
        reader.feed(piece.as_slice())?;
        take_all(&mut reader, &mut frames)?;
    }
    Ok(frames)
}
