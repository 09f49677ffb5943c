//! Reading a packet.
ghost use Rattle.std.specs.Prelude.{◌≡◌, ◌≤◌, ◌<◌, ◌-◌, ◌+◌, ◌++◌, ◌^◌, length, List, ℕ, IfOk};
ghost use Rattle.std.specs.{Prelude.OnErr, List.AllByRecursion};
ghost use Rattle.do_grammar.specs.{RestAnswers.Gives, PlaceAnswers.{Tells, Finds}};
ghost use Rattle.do_class.specs.declared.packet.Packet.{Packet};
ghost use Rattle.do_coder.specs.Recent.{IsKnown};
ghost use Rattle.do_coder.specs.Packets.{surroundings, packet_at, after_packet, SpellsPacket};

use crate::read::packet::packet_of;
use crate::recent::table::Recent;
use do_base::NodeId;
use do_class::{ClassTable, Packet};
use do_grammar::{CodeFault, ReadFault};
use std::alloc::Global;

/// What the reader of specs/ gives, with the table after it.
fn front_packet<'a>(
    alloc: Global,
    bytes: &'a [u8],
    table: &ClassTable,
    from: NodeId,
    to: NodeId,
    recent: &mut Recent,
) -> Result<(Packet, &'a [u8]), ReadFault>
    ensures gives { Gives (λ x. (x.0, x.1.now)) result
        (packet_at (surroundings table.now from to) recent.old bytes.now) }
    ensures after { IfOk result (λ x. recent.new ≡ after_packet recent.old x.0) }
    ensures err { OnErr result (recent.new ≡ recent.old) }
{
    match packet_of(alloc, bytes, table, from, to, &mut recent.log) {
        Ok((packet, rest)) => {
            recent.log.keep();
            Ok((packet, rest))
        }
        Err(e) => {
            recent.log.undo();
            Err(e)
        }
    }
}

/// The packet that begins the bytes, and the length of its spelling.
///
/// It is read as a message from one port to another, by the classes of `table` and by the table of
/// recent names, which is then the one after the packet. The pairs of that table have serials from
/// 1 to 2^63 - 1 and classes of `table`; they still do afterwards.
///
/// `Short` comes exactly where the bytes are a proper front of a spelling, and `Bad` with the first
/// byte with which no spelling goes on. `Memory` comes where memory runs out. A refusal leaves the
/// table of recent names as it was.
pub fn decode(
    alloc: Global,
    table: &ClassTable,
    from: NodeId,
    to: NodeId,
    recent: &mut Recent,
    bytes: &[u8],
) -> Result<(Packet, usize), CodeFault>
    requires known { AllByRecursion (IsKnown (length table.now)) recent.old }
    ensures exact { Tells (SpellsPacket (surroundings table.now from to) recent.old)
        (λ p. p) bytes.now result }
    ensures only { (text rest : List ℕ) (p : Packet)
        → SpellsPacket (surroundings table.now from to) recent.old text p
        → bytes.now ≡ text ++ rest → Finds (λ p. p) p (length text) result }
    ensures after { IfOk result (λ x. recent.new ≡ after_packet recent.old x.0) }
    ensures err { OnErr result (recent.new ≡ recent.old) }
    ensures stay_known { AllByRecursion (IsKnown (length table.now)) recent.new }
{
    let _classes = table.count();
    let _few = recent.len();
    match front_packet(alloc, bytes, table, from, to, recent) {
        Ok((packet, rest)) => Ok((packet, bytes.len() - rest.len())),
        Err(ReadFault::Short) => Err(CodeFault::Short),
        Err(ReadFault::Bad(left)) => Err(CodeFault::Bad(bytes.len() - left)),
        Err(ReadFault::Memory) => Err(CodeFault::Memory),
    }
}
