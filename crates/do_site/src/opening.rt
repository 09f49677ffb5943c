//! A site as it opens.
//!
//! The ports that a site opens with may have its own among them, which is left out. Where memory
//! runs out, what was built so far is dropped in an arm of its own. By `?` the proof would follow
//! each field of it behind each call.
ghost use Rattle.std.specs.Prelude.{◌≡◌, ◌≤◌, ◌==◌, ◌∷◌, [], ℕ, IfOk, IsTrue, OnOk, Some, length};
ghost use Rattle.std.specs.List.{IsDistinct, list_any};
ghost use Rattle.do_machine.specs.{World.{opening_node, others}, run.Fresh.{blank, with_objects}};
ghost use Rattle.do_network.specs.Net.{opening_own, opening_part};
ghost use Rattle.do_site.specs.{Kept.IsKept, Room.CanSettle, Steps.part_of};

use crate::needs::Needs;
use crate::tally::Reach;
use crate::told::Told;
use crate::work::Work;
use do_base::{NodeId, Peers};
use do_class::{ClassId, ClassTable};
use do_effects::Core;
use do_machine::Seat;
use do_part::Part;
use do_rules::blank;
use do_streams::Streams;
use std::alloc::AllocError;

/// The most peers of a site.
const PEERS: usize = 64;

/// The ports other than one.
fn others(ports: &Peers, port: NodeId) -> Result<Peers, AllocError>
    ensures { IfOk result (λ peers. peers ≡ others ports.now port) }
{
    let mut peers = Peers::new(ports.allocator());
    for peer in ports.as_slice() {
        if *peer != port {
            peers.push(*peer)?;
        }
    }
    Ok(peers)
}

/// Whether a port is among others.
fn is_among(peers: &[NodeId], port: NodeId) -> bool
    ensures { result ≡ list_any (λ p. port == p) peers.now }
{
    peers.iter().any(|peer| port == *peer)
}

/// Whether each port stands once.
#[tactic(auto, using(crate::proofs::DistinctPorts::none_distinct))]
fn are_distinct(peers: &[NodeId]) -> bool
    ensures { IsTrue result → IsDistinct (λ (p q : ℕ). p == q) peers.now }
{
    let Some((first, rest)) = peers.split_first() else {
        return true;
    };
    !is_among(rest, *first) && are_distinct(rest)
}

/// Whether ports are few, and each stands once.
fn are_apart(peers: &[NodeId]) -> bool
    ensures few { IsTrue result → length peers.now ≤ 64 }
    ensures distinct { IsTrue result → IsDistinct (λ (p q : ℕ). p == q) peers.now }
{
    peers.len() <= PEERS && are_distinct(peers)
}

/// Stores an object of a class, with nil slots, and makes it the root.
fn set_root(part: &mut Part, table: &ClassTable, class: ClassId) -> Result<(), AllocError>
    ensures own { OnOk result (part.new.own ≡ record part.old.own {
      node = record (with_objects (blank table.now class ∷ []) part.old.own.node) {
        root = Some part.old.own.node.next_serial;
      };
    }) }
{
    let root = blank(part.allocator(), table, class)?;
    let reach = Reach { part, more: 0 };
    let Some(names) = reach.of_values(root.slots.as_slice()) else {
        return Err(AllocError);
    };
    let Some(names) = names.checked_add(1) else {
        return Err(AllocError);
    };
    part.reserve(1, 0, names, 0)?;
    let oid = part.create(class, root.slots);
    part.set_root(Some(oid.serial));
    Ok(())
}

/// What a node with these peers has of its own, with its root alone.
fn opening_own(
    table: &ClassTable,
    ports: &Peers,
    seat: Seat,
    peers: Peers,
) -> Result<Part, AllocError>
    requires peers { peers ≡ others ports.now seat.node }
    requires few { length peers ≤ 64 }
    requires distinct { IsDistinct (λ (p q : ℕ). p == q) peers }
    ensures { IfOk result (λ part.
        part.own ≡ opening_own (opening_node table.now ports.now seat)) }
{
    let mut part = Part::new(ports.allocator(), seat.node, peers)?;
    let Ok(()) = set_root(&mut part, table, seat.root) else {
        drop(part);
        return Err(AllocError);
    };
    Ok(part)
}

/// What the steps of a site change, before its first input, with no room.
fn built(table: &ClassTable, seat: Seat, ports: &Peers) -> Result<Work, AllocError>
    ensures part { IfOk result (λ work. part_of work.core ≡ opening_part table.now ports.now seat) }
    ensures frames { IfOk result (λ work. work.core.streams.frames ≡ []) }
    ensures shown { IfOk result (λ work. work.core.streams.shown ≡ []) }
    ensures kept { IfOk result (λ work. IsKept table.now work) }
{
    let alloc = ports.allocator();
    let peers = others(ports, seat.node)?;
    if !are_apart(peers.as_slice()) {
        return Err(AllocError);
    }
    let Ok(streams) = Streams::new(alloc, &peers, table.count() as usize) else {
        drop(peers);
        return Err(AllocError);
    };
    let Ok(part) = opening_own(table, ports, seat, peers) else {
        drop(streams);
        return Err(AllocError);
    };
    Ok(Work {
        core: Core { part, streams },
        told: Told::new(alloc),
    })
}

/// What the steps of a site change, before its first input.
///
/// An error means that memory ran out, or that there are more than 64 peers, or one of them twice.
pub fn opening(table: &ClassTable, seat: Seat, ports: &Peers) -> Result<Work, AllocError>
    ensures part { IfOk result (λ work. part_of work.core ≡ opening_part table.now ports.now seat) }
    ensures frames { IfOk result (λ work. work.core.streams.frames ≡ []) }
    ensures shown { IfOk result (λ work. work.core.streams.shown ≡ []) }
    ensures kept { IfOk result (λ work. IsKept table.now work) }
    ensures places { IfOk result (λ work. CanSettle work) }
{
    let mut work = built(table, seat, ports)?;
    let Ok(()) = work.make_room(&Needs::to_tell(0)) else {
        drop(work);
        return Err(AllocError);
    };
    work.has_few();
    Ok(work)
}
