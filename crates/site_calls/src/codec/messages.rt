//! Calls of what reads and writes packets and frames, by tables of the objects named lately.

use crate::codec::changed::{Payloads, Stream, sum_of_changes};
use crate::codec::loads::{empty, put_object, put_texts};
use crate::codec::reading::Reading;
use call_rows::{
    Part, call_of, count_at, count_value, digits, no_call, number_at, pair_value, shown, text_at,
    text_value, value_at, word_with,
};
use do_base::{Value, Values};
use do_class::{self as class, Packet};
use do_coder::{Recent, encode};
use do_frames::{Frame, Payload, RawFault, RawFrame, write, write_within};
use do_grammar::CodeFault;
use do_native_acts::as_number;
use std::alloc::{AllocError, Global};
use std::mem;
use std::test::Fail;

/// What a row calls.
#[derive(Clone, Copy)]
enum Call {
    Begin,
    Read,
    Decode,
    Write,
    Encode,
    Shutdown,
    Copy,
    Length,
    Name,
    Names,
    Changes,
    ChangedStream,
    Frame,
    Packet,
    Clone,
    Known,
    Sent,
}

/// The words of the calls.
const CALLS: [(&[u8], Call); 17] = [
    (b"begin", Call::Begin),
    (b"read", Call::Read),
    (b"decode", Call::Decode),
    (b"write", Call::Write),
    (b"encode", Call::Encode),
    (b"shutdown", Call::Shutdown),
    (b"copy", Call::Copy),
    (b"length", Call::Length),
    (b"name", Call::Name),
    (b"names", Call::Names),
    (b"changes", Call::Changes),
    (b"changed_stream", Call::ChangedStream),
    (b"frame", Call::Frame),
    (b"packet", Call::Packet),
    (b"clone", Call::Clone),
    (b"known", Call::Known),
    (b"sent", Call::Sent),
];

/// What reads, what was read last, and the objects named lately in what was written.
#[derive(Drop)]
pub(crate) struct MessageCalls {
    alloc: Global,
    reading: Reading,
    frame: Frame,
    packet: Packet,
    sent: Recent,
}

impl MessageCalls {
    /// A reader without classes, and no object named yet.
    pub(crate) fn new(alloc: Global) -> Result<MessageCalls, Fail> {
        Ok(MessageCalls {
            alloc,
            reading: Reading::new(alloc)?,
            frame: Frame::Shutdown,
            packet: empty(alloc),
            sent: Recent::new(alloc),
        })
    }

    /// Begins anew, with one class of so many slots, or with none.
    fn begin(&mut self, args: &Values) -> Result<Value, Fail> {
        self.sent = Recent::new(self.alloc);
        match value_at(args, 0)?.number() {
            Some(count) => self.reading.begin_with(u8::try_from(count)?)?,
            None => self.reading.begin(),
        }
        Ok(Value::Nil)
    }

    /// Reads a payload. Nil where it is one, and else the first byte with which none goes on.
    fn read(&mut self, args: &Values) -> Result<Value, Fail> {
        let kind = u8::try_from(number_at(args, 0)?)?;
        let payload = Payload::behind(text_at(args, 1)?.clone()?, 0);
        match self.reading.frame(&RawFrame { kind, payload }) {
            Ok(frame) => {
                self.frame = frame;
                Ok(Value::Nil)
            }
            Err(RawFault::BadFrame(place)) => count_value(place),
            Err(RawFault::Memory) => Err(Fail::from(AllocError)),
        }
    }

    /// Reads a packet that begins the bytes, and tells how many it takes: `bad` with the first byte
    /// with which none goes on, or `short`, where there is none.
    fn decode(&mut self, args: &Values) -> Result<Value, Fail> {
        match self.reading.packet(text_at(args, 0)?.as_slice()) {
            Ok((packet, length)) => {
                self.packet = packet;
                count_value(length)
            }
            Err(CodeFault::Bad(place)) => word_with(self.alloc, b"bad", count_value(place)?),
            Err(CodeFault::Short) => text_value(self.alloc, b"short"),
            Err(CodeFault::Memory) => Err(Fail::from(AllocError)),
        }
    }

    /// The bytes of the frame, or nil where they are too many.
    fn write_within(&mut self) -> Result<Value, Fail> {
        match write_within(self.alloc, &self.frame, &mut self.sent)? {
            Some(text) => Ok(Value::Text(text)),
            None => Ok(Value::Nil),
        }
    }

    /// Makes a reply that holds a text so many times.
    fn hold(&mut self, args: &Values) -> Result<(), Fail> {
        let (text, count) = (text_at(args, 0)?, count_at(args, 1)?);
        self.packet = empty(self.alloc);
        put_texts(&mut self.packet, text, count)?;
        let packet = mem::replace(&mut self.packet, empty(self.alloc));
        self.frame = Frame::Reply { call: 1, packet };
        Ok(())
    }

    /// How many bytes a reply takes that holds a text so many times, or nil where they are too
    /// many.
    fn length(&mut self, args: &Values) -> Result<Value, Fail> {
        self.hold(args)?;
        match write_within(self.alloc, &self.frame, &mut self.sent)? {
            Some(text) => count_value(text.len()),
            None => Ok(Value::Nil),
        }
    }

    /// The bytes of the frame that ends a stream.
    fn shutdown(&mut self) -> Result<Value, Fail> {
        Ok(Value::Text(write(self.alloc, &Frame::Shutdown, &mut self.sent)?))
    }

    /// The bytes of the packet.
    fn encode(&mut self) -> Result<Value, Fail> {
        Ok(Value::Text(encode(self.alloc, &self.packet, &mut self.sent)?))
    }

    /// Writes a packet of one object of the sender, by its serial.
    fn write_name(&mut self, serial: i64) -> Result<Value, Fail> {
        self.packet = empty(self.alloc);
        put_object(&mut self.packet, u64::try_from(serial)?)?;
        self.encode()
    }

    /// Writes a packet of the object of a serial.
    fn name(&mut self, args: &Values) -> Result<Value, Fail> {
        let serial = number_at(args, 0)?;
        self.write_name(serial)
    }

    /// Writes a packet of one object for each serial from the first on, below the end.
    fn names(&mut self, args: &Values) -> Result<Value, Fail> {
        let (first, end) = (number_at(args, 0)?, number_at(args, 1)?);
        for serial in first..end {
            self.write_name(serial)?;
        }
        count_value(self.sent.len())
    }

    /// Goes on with a copy of the table of the objects that were written, and tells how many it
    /// has.
    fn copy(&mut self) -> Result<Value, Fail> {
        self.sent = self.sent.copy()?;
        count_value(self.sent.len())
    }

    /// The answers to a payload that is cut and changed at each byte, summed up.
    fn changes(&self, args: &Values) -> Result<Value, Fail> {
        let kind = u8::try_from(number_at(args, 0)?)?;
        let payload = text_at(args, 1)?;
        let reading = &self.reading;
        let sum = sum_of_changes(self.alloc, &Payloads { reading, kind }, payload.as_slice())?;
        Ok(Value::Text(digits(self.alloc, sum)?))
    }

    /// The answers to a stream that is cut and changed at each byte, summed up.
    fn stream_changes(&self, args: &Values) -> Result<Value, Fail> {
        let stream = text_at(args, 0)?;
        let alloc = self.alloc;
        let sum = sum_of_changes(alloc, &Stream { alloc }, stream.as_slice())?;
        Ok(Value::Text(digits(alloc, sum)?))
    }

    /// Whether a clone of the packet is equal to it, and whether it is with nil behind its values.
    fn cloned(&self) -> Result<Value, Fail> {
        let mut copy = self.packet.clone()?;
        let same = as_number(copy == self.packet);
        copy.values.push(class::Part::Nil)?;
        let longer = as_number(copy == self.packet);
        pair_value(self.alloc, same, longer)
    }
}

impl Part for MessageCalls {
    fn call(&mut self, word: &[u8], args: &Values) -> Result<Value, Fail> {
        match call_of(&CALLS, word) {
            Some(Call::Begin) => self.begin(args),
            Some(Call::Read) => self.read(args),
            Some(Call::Decode) => self.decode(args),
            Some(Call::Write) => self.write_within(),
            Some(Call::Encode) => self.encode(),
            Some(Call::Shutdown) => self.shutdown(),
            Some(Call::Copy) => self.copy(),
            Some(Call::Length) => self.length(args),
            Some(Call::Name) => self.name(args),
            Some(Call::Names) => self.names(args),
            Some(Call::Changes) => self.changes(args),
            Some(Call::ChangedStream) => self.stream_changes(args),
            Some(Call::Frame) => shown(self.alloc, &self.frame),
            Some(Call::Packet) => shown(self.alloc, &self.packet),
            Some(Call::Clone) => self.cloned(),
            Some(Call::Known) => count_value(self.reading.known()),
            Some(Call::Sent) => count_value(self.sent.len()),
            None => no_call(),
        }
    }
}
