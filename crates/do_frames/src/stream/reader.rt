//! A stream that comes in pieces, and its frames.
//!
//! The payload of a raw frame is a cut of the reader's buffer (`Bytes`), or the text of a whole
//! frame behind its first five bytes. Neither copies anything. Texts inside it are copied once,
//! when the frame is read. A `Text` can't be cut in two, as a buffer can.
ghost use Rattle.std.specs.Prelude.{◌≡◌, ◌++◌, ◌≤◌, ◌<◌, ◌^◌, [], true, false, length, get_or};
ghost use Rattle.std.specs.Prelude.{None, IfOk, OnOk, OnErr};
ghost use Rattle.do_frames.specs.Streams.{Stream, fault_of, place_after, TakesFrame, TellsNext};
ghost use Rattle.do_frames.specs.Places.{IsPlaced};

use crate::fault::StreamFault;
use crate::frame::RawFrame;
use crate::stream::front::{FramePlace, place_of};
use crate::unread::Payload;
use bytes::BytesMut;
use do_grammar::ReadFault;
use std::alloc::{AllocError, Global};
use std::marker::Model;

/// A stream of frames that comes in pieces of any length.
///
/// It keeps the bytes of the next frame, each of them once, and takes no memory for bytes that have
/// not come. Contracts see whether the greeting was passed over, how many bytes were taken, the
/// bytes that are kept, and the fault that was found. Places are counted by 64 bits.
#[derive(Debug, Drop)]
pub struct Reader {
    bytes: BytesMut,
    greeted: bool,
    place: u64,
    fault: Option<StreamFault>,
}

impl Model for Reader {
    ghost use Rattle.do_frames.specs.Streams.{Stream};

    ghost Value = { Stream };

    ghost view = { λ r. record
        { greeted = r.greeted; place = r.place; rest = r.bytes.items; fault = r.fault } };
}

impl Reader {
    /// A stream of which nothing came. No memory is taken.
    pub fn new(alloc: Global) -> Reader
        ensures { result ≡ record { greeted = false; place = 0; rest = []; fault = None } }
    {
        Reader {
            bytes: BytesMut::new(alloc),
            greeted: false,
            place: 0,
            fault: None,
        }
    }

    /// Takes the next piece of the stream. If memory runs out the stream is as before it.
    pub fn feed(&mut self, piece: &[u8]) -> Result<(), AllocError>
        ensures ok { OnOk result (self.new ≡ record {
          greeted = self.old.greeted;
          place = self.old.place;
          rest = self.old.rest ++ piece.now;
          fault = self.old.fault;
        }) }
        ensures err { OnErr result (self.new ≡ self.old) }
    {
        self.bytes.extend_from_slice(piece)
    }

    /// The next frame, if the whole of it came.
    ///
    /// The greeting is passed over before the first frame. None comes exactly where the bytes that
    /// are kept are a proper front of a frame, with the greeting before the first.
    ///
    /// `BadKind` and `BadLength` have the place of the kind or of the length with which no frame
    /// goes on, and `BadVersion` the version of a greeting that is not 2, each as soon as the byte
    /// at fault came; they are then answered ever after. If memory runs out the stream is
    /// unchanged.
    pub fn next(&mut self) -> Result<Option<RawFrame>, StreamFault>
        ensures { TellsNext self.old.fault self.old self.new result }
    {
        if let Some(fault) = self.fault {
            return Err(fault);
        }
        match place_of(self.bytes.as_slice(), self.greeted) {
            Ok(place) => Ok(Some(self.take(place)?)),
            Err(ReadFault::Short) => Ok(None),
            Err(ReadFault::Memory) => Err(StreamFault::Memory),
            Err(ReadFault::Bad(left)) => {
                let fault = self.fault_at(self.bytes.len() - left);
                self.fault = Some(fault);
                Err(fault)
            }
        }
    }

    /// Takes out the frame at a place.
    fn take(&mut self, place: FramePlace) -> Result<RawFrame, AllocError>
        requires placed { IsPlaced self.old.greeted self.old.rest place }
        requires no_fault { self.old.fault ≡ None }
        ensures ok { IfOk result (λ f. TakesFrame self.old f self.new) }
        ensures err { OnErr result (self.new ≡ self.old) }
    {
        let mut cut = self.bytes.freeze_to(place.ends)?;
        cut.advance(place.begins);
        self.greeted = true;
        self.place = self.place.wrapping_add(place.ends as u64);
        Ok(RawFrame {
            kind: place.kind,
            payload: Payload::cut(cut),
        })
    }

    /// The fault of a bad byte at a place of the bytes that are kept.
    fn fault_at(&self, at: usize) -> StreamFault
        requires { at < length self.now.rest }
        ensures { result ≡ fault_of self.now at }
    {
        if self.greeted {
            if at == 0 {
                return StreamFault::BadKind(self.place);
            }
            return StreamFault::BadLength(self.place.wrapping_add(1));
        }
        match at {
            0 => StreamFault::BadKind(0),
            1..=4 => StreamFault::BadLength(1),
            5 => StreamFault::BadVersion(u64::from(self.bytes.as_slice()[5])),
            6 => StreamFault::BadKind(6),
            _ => StreamFault::BadLength(7),
        }
    }
}
