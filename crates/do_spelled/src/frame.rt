//! Frames that have a spelling.
ghost use Rattle.std.specs.Prelude.{◌↔◌, IsTrue};
ghost use Rattle.do_coder.specs.{Packets.{surroundings, IsPacket}, Recent.IsSerial};
ghost use Rattle.do_frames.specs.{Exceptions.IsExc, Frames.{IsFrame, IsToken}};

use crate::name::has_number;
use crate::packet::has_packet;
use crate::part::has_text;
use crate::ranges::port_fits;
use do_base::{Exc, NodeId, Token};
use do_class::ClassTable;
use do_frames::Frame;
use do_grammar::is_selector;

/// Whether an exception has a spelling: a user's text is not too long.
fn has_exception(exc: &Exc) -> bool
    ensures { IsTrue result ↔ IsExc exc.now }
{
    match exc {
        Exc::User(text) => has_text(text),
        _ => true,
    }
}

/// Whether an object under a token has a spelling.
fn has_token(serial: u64, token: &Token) -> bool
    ensures { IsTrue result ↔ IsToken serial token.now }
{
    port_fits(token.lender);
    has_number(serial) && has_number(token.number)
}

/// Whether a frame has a spelling, as a message from one node to another, that a reader of the same
/// classes reads.
///
/// It has none where a number is 0 or above 2^63 - 1, a text has over 1,048,575 bytes, a selector
/// is none, or the packet has over 65,536 names, 4,096 copies or 9 values, lists of over 1,024
/// items or more than 8 in one another, a copy or a name that is not there, a class that the table
/// does not have, a copied object with fewer or more slots than its class, or a lent object that
/// lives at one of the two nodes. It takes no memory.
pub fn has_spelling(frame: &Frame, table: &ClassTable, from: NodeId, to: NodeId) -> bool
    ensures { IsTrue result ↔ IsFrame (surroundings table.now from to) frame.now }
{
    match frame {
        Frame::Call {
            call,
            serial,
            selector,
            packet,
        } => {
            has_number(*call)
                && has_number(*serial)
                && is_selector(selector.as_slice())
                && has_packet(packet, table, from, to)
        }
        Frame::Oneway {
            serial,
            selector,
            packet,
        } => {
            has_number(*serial)
                && is_selector(selector.as_slice())
                && has_packet(packet, table, from, to)
        }
        Frame::Reply { call, packet } | Frame::RootAnswer { call, packet } => {
            has_number(*call) && has_packet(packet, table, from, to)
        }
        Frame::Raised { call, exc } => has_number(*call) && has_exception(exc),
        Frame::RootAsk { call } => has_number(*call),
        Frame::Retain { serial, token }
        | Frame::Granted { serial, token }
        | Frame::Gone { serial, token } => has_token(*serial, token),
        Frame::Release { serial, amount } => has_number(*serial) && has_number(*amount),
        Frame::Settle { number } => has_number(*number),
        Frame::Shutdown => true,
    }
}
