//! Reading packets.
ghost use Rattle.std.specs.Prelude.{◌≡◌, ◌≤◌, ◌<◌, ◌-◌, ◌+◌, ◌++◌, ◌^◌, length, map, get_or, List};
ghost use Rattle.std.specs.{Prelude.{ℕ, IfOk, OnErr, MatchResult}, List.{fold, AllByRecursion}};
ghost use Rattle.do_grammar.specs.{Reader.{no_kind, times}, RestAnswers.Gives};
ghost use Rattle.do_grammar.specs.PlaceAnswers.{Tells, Finds};
ghost use Rattle.do_coder.specs.{Recent.{after_name, IsKnown}, Packets.{surroundings, slot_counts}};
ghost use Rattle.do_coder.specs.Packets.{sides_of, copy_at, copies_at, values_at, packet_at};
ghost use Rattle.do_coder.specs.Packets.{after_packet, SpellsPacket, most_copies};

use crate::read::name::names_of;
use crate::read::part::parts_of;
use crate::read::sides::Sides;
use crate::recent::name_log::NameLog;
use do_base::{Items, NodeId};
use do_class::{ClassId, ClassTable, Copied, CopyList, Packet, Parts};
use do_grammar::{ReadFault, num_of};
use std::alloc::Global;

/// A copied object, and the bytes behind it.
#[tactic(auto, using(crate::proofs::values::Slots::len), unfolding(crate::specs::Packets::copy_at))]
fn copied_of<'a>(
    alloc: Global,
    bytes: &'a [u8],
    table: &ClassTable,
    copies: u64,
    names: u64,
) -> Result<(Copied, &'a [u8]), ReadFault>
    requires { 0 < length table.now }
    ensures { Gives (λ x. (x.0, x.1.now)) result
        (copy_at (slot_counts table.now) copies names bytes.now) }
{
    let (class, rest) = num_of(bytes, 0, u64::from(table.count()) - 1)?;
    let class = ClassId(class as u32);
    let slots = table.slots(class).len() as u64;
    let (count, rest) = num_of(rest, slots, slots)?;
    match parts_of(alloc, rest, copies, names, 8, count) {
        Ok((slots, rest)) => Ok((Copied { class, slots }, rest)),
        Err(e) => Err(e),
    }
}

/// So many copied objects, and the bytes behind them.
fn many_copies<'a>(
    alloc: Global,
    bytes: &'a [u8],
    table: &ClassTable,
    names: u64,
    count: u64,
) -> Result<(CopyList, &'a [u8]), ReadFault>
    requires { 0 < count → 0 < length table.now }
    ensures { Gives (λ x. (x.0, x.1.now)) result
        (times (copy_at (slot_counts table.now) count names) count bytes.now) }
{
    let mut copies = Items::new(alloc);
    let mut rest = bytes;
    for _ in 0..count {
        match copied_of(alloc, rest, table, count, names) {
            Ok((copied, after)) => {
                copies.push(copied)?;
                rest = after;
            }
            Err(e) => return Err(e),
        }
    }
    Ok((copies, rest))
}

/// The most copied objects.
fn most_of(table: &ClassTable) -> u64
    ensures value { result ≡ most_copies (slot_counts table.now) }
    ensures some { 0 < result → 0 < length table.now }
{
    if table.count() == 0 { 0 } else { 4096 }
}

/// The copied objects of a packet, and the bytes behind them.
#[tactic(auto, unfolding(crate::specs::Packets::copies_at))]
fn copies_of<'a>(
    alloc: Global,
    bytes: &'a [u8],
    table: &ClassTable,
    names: u64,
) -> Result<(CopyList, &'a [u8]), ReadFault>
    ensures { Gives (λ x. (x.0, x.1.now)) result
        (copies_at (slot_counts table.now) names bytes.now) }
{
    let (count, rest) = num_of(bytes, 0, most_of(table))?;
    many_copies(alloc, rest, table, names, count)
}

/// The values of a packet, and the bytes behind them.
#[tactic(auto, unfolding(crate::specs::Packets::values_at))]
fn values_of(
    alloc: Global,
    bytes: &[u8],
    copies: u64,
    names: u64,
) -> Result<(Parts, &[u8]), ReadFault>
    ensures { Gives (λ x. (x.0, x.1.now)) result (values_at copies names bytes.now) }
{
    let (count, rest) = num_of(bytes, 0, 9)?;
    parts_of(alloc, rest, copies, names, 8, count)
}

/// A packet, and the bytes behind it. The table is then the one after its names.
#[tactic(auto, unfolding(crate::specs::Packets::packet_at))]
pub fn packet_of<'a>(
    alloc: Global,
    bytes: &'a [u8],
    table: &ClassTable,
    from: NodeId,
    to: NodeId,
    recent: &mut NameLog,
) -> Result<(Packet, &'a [u8]), ReadFault>
    ensures gives { Gives (λ x. (x.0, x.1.now)) result
        (packet_at (surroundings table.now from to) recent.old.now bytes.now) }
    ensures after { IfOk result (λ x. recent.new
        ≡ record { now = after_packet recent.old.now x.0; kept = recent.old.kept }) }
    ensures err { OnErr result (recent.new.kept ≡ recent.old.kept) }
{
    let sides = Sides {
        classes: table.count(),
        from: from.port(),
        to: to.port(),
    };
    match names_of(alloc, bytes, &sides, recent) {
        Ok((names, rest)) => {
            match copies_of(alloc, rest, table, names.len() as u64) {
                Ok((copies, rest)) => {
                    match values_of(alloc, rest, copies.len() as u64, names.len() as u64) {
                        Ok((values, rest)) => Ok((
                            Packet {
                                names,
                                copies,
                                values,
                            },
                            rest,
                        )),
                        Err(e) => Err(e),
                    }
                }
                Err(e) => Err(e),
            }
        }
        Err(e) => Err(e),
    }
}
