//! Reading what the payloads that hold a packet are made of.
//!
//! A refused frame leaves the table of recent names by the log of do_coder. The table is taken
//! out as a log, and put back with or without the pairs of the message.
ghost use Rattle.std.specs.Prelude.{◌≡◌, ◌≤◌, ◌<◌, ◌^◌, IfOk, OnErr};
ghost use Rattle.do_grammar.specs.RestAnswers.{Gives};
ghost use Rattle.do_coder.specs.Packets.{surroundings, after_packet};
ghost use Rattle.do_frames.specs.declared.frame.Frame.TheVariants.{Call, Oneway};
ghost use Rattle.do_frames.specs.Payloads.{message_at, answer_at};

use crate::frame::Frame;
use crate::payload::plain::TOP;
use crate::payload::selector::selector_of;
use do_base::{NodeId, Text};
use do_class::{ClassTable, Packet};
use do_coder::{NameLog, packet_of};
use do_grammar::{ReadFault, num_of};
use std::alloc::Global;

/// What a message says to an object.
#[derive(Drop)]
pub struct Message {
    pub serial: u64,
    pub selector: Text,
    pub packet: Packet,
}

/// A serial, a selector and a packet, and the bytes behind them.
#[tactic(auto, unfolding(crate::specs::Payloads::message_at))]
pub(crate) fn message_of<'a>(
    alloc: Global,
    bytes: &'a [u8],
    table: &ClassTable,
    from: NodeId,
    to: NodeId,
    recent: &mut NameLog,
) -> Result<(Message, &'a [u8]), ReadFault>
    ensures gives { Gives (λ x. ((x.0.serial, (x.0.selector, x.0.packet)), x.1.now)) result
        (message_at (surroundings table.now from to) recent.old.now bytes.now) }
    ensures after { IfOk result (λ x. recent.new
        ≡ record { now = after_packet recent.old.now x.0.packet; kept = recent.old.kept }) }
    ensures err { OnErr result (recent.new.kept ≡ recent.old.kept) }
{
    let (serial, rest) = num_of(bytes, 1, TOP)?;
    match selector_of(alloc, rest) {
        Ok((selector, rest)) => match packet_of(alloc, rest, table, from, to, recent) {
            Ok((packet, rest)) => Ok((
                Message {
                    serial,
                    selector,
                    packet,
                },
                rest,
            )),
            Err(e) => Err(e),
        },
        Err(e) => Err(e),
    }
}

/// A call of a message under a number.
pub fn call(number: u64, message: Message) -> Frame
    ensures { result ≡ Call number message.serial message.selector message.packet }
{
    Frame::Call {
        call: number,
        serial: message.serial,
        selector: message.selector,
        packet: message.packet,
    }
}

/// A message that nobody waits for.
pub fn oneway(message: Message) -> Frame
    ensures { result ≡ Oneway message.serial message.selector message.packet }
{
    Frame::Oneway {
        serial: message.serial,
        selector: message.selector,
        packet: message.packet,
    }
}

/// The number of a call and a packet, and the bytes behind them.
#[tactic(auto, unfolding(crate::specs::Payloads::answer_at))]
pub fn answer_of<'a>(
    alloc: Global,
    bytes: &'a [u8],
    table: &ClassTable,
    from: NodeId,
    to: NodeId,
    recent: &mut NameLog,
) -> Result<((u64, Packet), &'a [u8]), ReadFault>
    ensures gives { Gives (λ x. (x.0, x.1.now)) result
        (answer_at (surroundings table.now from to) recent.old.now bytes.now) }
    ensures after { IfOk result (λ x. recent.new
        ≡ record { now = after_packet recent.old.now x.0.1; kept = recent.old.kept }) }
    ensures err { OnErr result (recent.new.kept ≡ recent.old.kept) }
{
    let (call, rest) = num_of(bytes, 1, TOP)?;
    match packet_of(alloc, rest, table, from, to, recent) {
        Ok((packet, rest)) => Ok(((call, packet), rest)),
        Err(e) => Err(e),
    }
}
