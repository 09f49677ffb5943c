//! Calls of what takes frames out of a stream that comes in pieces.

use call_rows::{
    Part, call_of, count_at, count_value, no_call, pair_value, printed, text_at, texts_at,
};
use do_base::{Value, Values};
use do_frames::{RawFrame, Reader, frames_of};
use std::alloc::Global;
use std::test::Fail;

/// What a row calls.
#[derive(Clone, Copy)]
enum Call {
    Begin,
    Feed,
    Next,
    Pieces,
    Frames,
}

/// The words of the calls.
const CALLS: [(&[u8], Call); 5] = [
    (b"begin", Call::Begin),
    (b"feed", Call::Feed),
    (b"next", Call::Next),
    (b"pieces", Call::Pieces),
    (b"frames", Call::Frames),
];

/// A stream that is read.
#[derive(Drop)]
pub(crate) struct StreamCalls {
    alloc: Global,
    reader: Reader,
}

/// The kind of a frame and the length of its payload.
fn frame_value(alloc: Global, frame: &RawFrame) -> Result<Value, Fail> {
    let length = count_value(frame.payload.as_slice().len())?;
    let kind = Value::Num(i64::from(frame.kind));
    pair_value(alloc, kind, length)
}

/// The next frame, nil where there is none yet, or the fault of the stream, printed.
fn next(alloc: Global, reader: &mut Reader) -> Result<Value, Fail> {
    match reader.next() {
        Ok(Some(frame)) => frame_value(alloc, &frame),
        Ok(None) => Ok(Value::Nil),
        Err(fault) => printed(alloc, fault),
    }
}

/// Feeds a piece, and adds the frames that come then, of which there are at most two.
fn feed(alloc: Global, reader: &mut Reader, piece: &[u8], frames: &mut Values) -> Result<(), Fail> {
    reader.feed(piece)?;
    for _ in 0..2 {
        match next(alloc, reader)? {
            Value::Nil => {}
            frame => frames.push(frame)?,
        }
    }
    Ok(())
}

/// Feeds a stream in pieces of a length, and adds the frames that come.
fn feed_pieces(
    alloc: Global,
    reader: &mut Reader,
    stream: &[u8],
    length: usize,
    frames: &mut Values,
) -> Result<(), Fail> {
    for piece in stream.chunks(length.max(1)) {
        feed(alloc, reader, piece, frames)?;
    }
    Ok(())
}

impl StreamCalls {
    /// A stream of which nothing came.
    pub(crate) fn new(alloc: Global) -> StreamCalls {
        StreamCalls {
            alloc,
            reader: Reader::new(alloc),
        }
    }

    /// Begins anew with a stream of which nothing came.
    fn begin(&mut self) -> Value {
        self.reader = Reader::new(self.alloc);
        Value::Nil
    }

    /// Feeds a piece of the stream.
    fn feed(&mut self, args: &Values) -> Result<Value, Fail> {
        self.reader.feed(text_at(args, 0)?.as_slice())?;
        Ok(Value::Nil)
    }

    /// The frames that come from a stream in pieces of a length.
    fn pieces(&mut self, args: &Values) -> Result<Value, Fail> {
        let length = usize::from(count_at(args, 0)?);
        let stream = text_at(args, 1)?;
        self.reader = Reader::new(self.alloc);
        let mut frames = Values::new(self.alloc);
        feed_pieces(
            self.alloc,
            &mut self.reader,
            stream.as_slice(),
            length,
            &mut frames,
        )?;
        Ok(Value::List(frames))
    }

    /// How many frames a stream has that came in these pieces, or its fault, printed.
    fn frames(&self, args: &Values) -> Result<Value, Fail> {
        let pieces = texts_at(args, 0)?;
        match frames_of(self.alloc, pieces.as_slice()) {
            Ok(frames) => count_value(frames.len()),
            Err(fault) => printed(self.alloc, fault),
        }
    }
}

impl Part for StreamCalls {
    fn call(&mut self, word: &[u8], args: &Values) -> Result<Value, Fail> {
        match call_of(&CALLS, word) {
            Some(Call::Begin) => Ok(self.begin()),
            Some(Call::Feed) => self.feed(args),
            Some(Call::Next) => next(self.alloc, &mut self.reader),
            Some(Call::Pieces) => self.pieces(args),
            Some(Call::Frames) => self.frames(args),
            None => no_call(),
        }
    }
}
