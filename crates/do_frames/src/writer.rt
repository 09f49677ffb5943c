//! Writing frames.
ghost use Rattle.std.specs.Prelude.{◌≡◌, ◌++◌, ◌∷◌, ◌≤◌, ◌<◌, ◌^◌, ◌↔◌, [], length, IfOk, OnOk};
ghost use Rattle.std.specs.Prelude.{IfSome, IsNone, List, OnErr, ℕ};
ghost use Rattle.do_grammar.specs.Num.{num, digits, counted};
ghost use Rattle.do_coder.specs.Packets.{packet_spelling, after_packet};
ghost use Rattle.do_frames.specs.Exceptions.{exc_spelling};
ghost use Rattle.do_frames.specs.Frames.{kind_of as frame_kind, token_spelling, payload_spelling};
ghost use Rattle.do_frames.specs.{Frames.{frame_spelling, after_frame}, Kinds.kind_number};

use crate::frame::Frame;
use crate::kind::{Kind, number_of};
use crate::stream::front::LONGEST_PAYLOAD;
use do_base::{Exc, Text, Token};
use do_class::Packet;
use do_coder::{NameLog, Recent, push_packet};
use do_grammar::{push_num, push_text};
use std::alloc::{AllocError, Global};

/// How many bytes of a frame stand before its payload.
const HEADER: usize = 5;

/// For how many bytes of a frame room is made at once; most have fewer.
const SHORT: usize = 48;

/// The kind of a frame.
fn kind_of(frame: &Frame) -> Kind
    ensures { result ≡ frame_kind frame.now }
{
    match frame {
        Frame::Call { .. } => Kind::Call,
        Frame::Oneway { .. } => Kind::Oneway,
        Frame::Reply { .. } => Kind::Reply,
        Frame::Raised { .. } => Kind::Raised,
        Frame::RootAsk { .. } => Kind::RootAsk,
        Frame::RootAnswer { .. } => Kind::RootAnswer,
        Frame::Retain { .. } => Kind::Retain,
        Frame::Granted { .. } => Kind::Granted,
        Frame::Gone { .. } => Kind::Gone,
        Frame::Release { .. } => Kind::Release,
        Frame::Settle { .. } => Kind::Settle,
        Frame::Shutdown => Kind::Shutdown,
    }
}

/// Adds the spelling of an exception.
fn push_exception(out: &mut Text, exc: &Exc) -> Result<(), AllocError>
    ensures { OnOk result (out.new ≡ out.old ++ exc_spelling exc.now) }
{
    match exc {
        Exc::TypeFault => push_num(out, 1),
        Exc::Range => push_num(out, 2),
        Exc::Deep => push_num(out, 3),
        Exc::NotUnderstood => push_num(out, 4),
        Exc::ConnectionDied => push_num(out, 5),
        Exc::NotVended => push_num(out, 6),
        Exc::TooLarge => push_num(out, 7),
        Exc::User(text) => {
            push_num(out, 8)?;
            push_text(out, text.as_slice())
        }
        Exc::TimedOut => push_num(out, 9),
    }
}

/// Adds the spelling of an object under a token.
fn push_token(out: &mut Text, serial: u64, token: &Token) -> Result<(), AllocError>
    ensures { OnOk result (out.new ≡ out.old ++ token_spelling serial token.now) }
{
    push_num(out, serial)?;
    push_num(out, u64::from(token.lender.port()))?;
    push_num(out, token.number)
}

/// Adds the spelling of a message to an object.
fn push_message(
    out: &mut Text,
    serial: u64,
    selector: &Text,
    packet: &Packet,
    recent: &mut NameLog,
) -> Result<(), AllocError>
    ensures ok { OnOk result (out.new ≡ out.old ++ (num serial
        ++ (counted selector.now ++ packet_spelling recent.old.now packet.now))) }
    ensures after { OnOk result (recent.new
        ≡ record { now = after_packet recent.old.now packet.now; kept = recent.old.kept }) }
    ensures err { OnErr result (recent.new.kept ≡ recent.old.kept) }
{
    push_num(out, serial)?;
    push_text(out, selector.as_slice())?;
    push_packet(out, packet, recent)
}

/// Adds the spelling of an answer to a call.
fn push_answer(
    out: &mut Text,
    call: u64,
    packet: &Packet,
    recent: &mut NameLog,
) -> Result<(), AllocError>
    ensures ok { OnOk result (out.new ≡ out.old
        ++ (num call ++ packet_spelling recent.old.now packet.now)) }
    ensures after { OnOk result (recent.new
        ≡ record { now = after_packet recent.old.now packet.now; kept = recent.old.kept }) }
    ensures err { OnErr result (recent.new.kept ≡ recent.old.kept) }
{
    push_num(out, call)?;
    push_packet(out, packet, recent)
}

/// Adds the spelling of a frame's payload by the table, which is then the one after the frame.
fn push_payload(out: &mut Text, frame: &Frame, recent: &mut NameLog) -> Result<(), AllocError>
    ensures ok { OnOk result (out.new ≡ out.old ++ payload_spelling recent.old.now frame.now) }
    ensures after { OnOk result (recent.new
        ≡ record { now = after_frame recent.old.now frame.now; kept = recent.old.kept }) }
    ensures err { OnErr result (recent.new.kept ≡ recent.old.kept) }
{
    match frame {
        Frame::Call {
            call,
            serial,
            selector,
            packet,
        } => {
            push_num(out, *call)?;
            push_message(out, *serial, selector, packet, recent)
        }
        Frame::Oneway {
            serial,
            selector,
            packet,
        } => push_message(out, *serial, selector, packet, recent),
        Frame::Reply { call, packet } => push_answer(out, *call, packet, recent),
        Frame::Raised { call, exc } => {
            push_num(out, *call)?;
            push_exception(out, exc)
        }
        Frame::RootAsk { call } => push_num(out, *call),
        Frame::RootAnswer { call, packet } => push_answer(out, *call, packet, recent),
        Frame::Retain { serial, token } => push_token(out, *serial, token),
        Frame::Granted { serial, token } => push_token(out, *serial, token),
        Frame::Gone { serial, token } => push_token(out, *serial, token),
        Frame::Release { serial, amount } => {
            push_num(out, *serial)?;
            push_num(out, *amount)
        }
        Frame::Settle { number } => push_num(out, *number),
        Frame::Shutdown => Ok(()),
    }
}

/// A frame of a kind of which no payload is spelled yet: four zeros stand for its length.
fn begun(alloc: Global, kind: Kind) -> Result<Text, AllocError>
    ensures { IfOk result (λ text. text ≡ kind_number kind ∷ 0 ∷ 0 ∷ 0 ∷ 0 ∷ []) }
{
    let mut bytes = Vec::with_capacity(alloc, SHORT)?;
    bytes.extend_from_slice(&[number_of(kind), 0, 0, 0, 0])?;
    Text::from_vec(alloc, bytes)
}

/// Puts the length of a payload into the place that was left for it.
fn put_length(text: &mut Text, size: u32) -> Result<(), AllocError>
    requires { 5 ≤ length text.old }
    ensures { (kind : ℕ) (payload : List ℕ) → text.old ≡ kind ∷ 0 ∷ 0 ∷ 0 ∷ 0 ∷ payload →
        OnOk result (text.new ≡ kind ∷ (digits 4 size ++ payload)) }
{
    let low = size % 0x100_0000;
    let lower = low % 0x1_0000;
    text.set(1, (size / 0x100_0000) as u8)?;
    text.set(2, (low / 0x1_0000) as u8)?;
    text.set(3, (lower / 0x100) as u8)?;
    text.set(4, (lower % 0x100) as u8)
}

/// The spelling of a frame by the table, which is then the one after the frame. None where the
/// payload is too long.
fn framed(alloc: Global, frame: &Frame, recent: &mut NameLog) -> Result<Option<Text>, AllocError>
    ensures text { IfOk result (λ o. IfSome o (λ text. text
        ≡ frame_spelling recent.old.now frame.now)) }
    ensures none { IfOk result (λ o. IsNone o
        ↔ (2098176 < length (payload_spelling recent.old.now frame.now))) }
    ensures after { IfOk result (λ o. recent.new
        ≡ record { now = after_frame recent.old.now frame.now; kept = recent.old.kept }) }
    ensures err { OnErr result (recent.new.kept ≡ recent.old.kept) }
{
    let mut text = begun(alloc, kind_of(frame))?;
    push_payload(&mut text, frame, recent)?;
    let length = text.len() - HEADER;
    if length > LONGEST_PAYLOAD as usize {
        return Ok(None);
    }
    put_length(&mut text, length as u32)?;
    Ok(Some(text))
}

/// The spelling of a frame by the table of recent names, which is then the one after the frame;
/// none exactly where the payload is over 2,098,176 bytes, and the table is then unchanged.
///
/// A `Reader` and then `read_raw` give the frame back, whatever follows, where it keeps to the
/// limits of the reader's classes and ports and the reader's table is equal. If memory runs out the
/// table is unchanged.
pub fn write_within(
    alloc: Global,
    frame: &Frame,
    recent: &mut Recent,
) -> Result<Option<Text>, AllocError>
    ensures text { IfOk result (λ o. IfSome o (λ text. text
        ≡ frame_spelling recent.old frame.now)) }
    ensures none { IfOk result (λ o. IsNone o
        ↔ (2098176 < length (payload_spelling recent.old frame.now))) }
    ensures after { IfOk result (λ o. IfSome o (λ text. recent.new
        ≡ after_frame recent.old frame.now)) }
    ensures stays { IfOk result (λ o. IsNone o → recent.new ≡ recent.old) }
    ensures err { OnErr result (recent.new ≡ recent.old) }
{
    let mut log = recent.take_log();
    match framed(alloc, frame, &mut log) {
        Ok(Some(text)) => {
            recent.keep(log);
            Ok(Some(text))
        }
        Ok(None) => {
            recent.undo(log);
            Ok(None)
        }
        Err(e) => {
            recent.undo(log);
            Err(e)
        }
    }
}

/// The same for a frame whose payload has at most 2,098,176 bytes.
///
/// If memory runs out the table is unchanged.
pub fn write(alloc: Global, frame: &Frame, recent: &mut Recent) -> Result<Text, AllocError>
    requires { length (payload_spelling recent.old frame.now) ≤ 2098176 }
    ensures text { IfOk result (λ text. text ≡ frame_spelling recent.old frame.now) }
    ensures after { OnOk result (recent.new ≡ after_frame recent.old frame.now) }
    ensures err { OnErr result (recent.new ≡ recent.old) }
{
    match write_within(alloc, frame, recent) {
        Ok(Some(text)) => Ok(text),
        Ok(None) => Err(AllocError),
        Err(e) => Err(e),
    }
}
