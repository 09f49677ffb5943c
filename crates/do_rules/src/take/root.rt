//! The root, as it goes to a peer.
ghost use Rattle.std.specs.Prelude.{◌≡◌, ◌∷◌, [], IfOk};
ghost use Rattle.do_machine.specs.take.Take.{root_packet};

use crate::basis::Basis;
use crate::lists::one;
use do_base::{Items, NodeId};
use do_class::{ClassId, Name, Packet, Part};
use std::alloc::{AllocError, Global};

/// A message of nil alone.
fn nil_packet(alloc: Global) -> Result<Packet, AllocError>
    ensures { IfOk result (λ p. p ≡ record { names = []; copies = []; values = Part.Nil ∷ [] }) }
{
    Ok(Packet {
        values: one(alloc, Part::Nil)?,
        names: Items::new(alloc),
        copies: Items::new(alloc),
    })
}

/// A message of an object of the sender alone.
fn own_packet(alloc: Global, serial: u64, class: ClassId) -> Result<Packet, AllocError>
    ensures { IfOk result (λ p. p ≡ record {
      names = Name.Mine serial class ∷ [];
      copies = [];
      values = Part.Named 0 ∷ [];
    }) }
{
    let names = one(alloc, Name::Mine { serial, class })?;
    let values = one(alloc, Part::Named(0))?;
    Ok(Packet {
        names,
        copies: Items::new(alloc),
        values,
    })
}

/// The root as a message to a peer: its name, or nil where there is no root that is stored.
pub(crate) fn root_packet<N: Basis>(basis: &N, to: NodeId) -> Result<Packet, AllocError>
    ensures { IfOk result (λ p. p ≡ root_packet (N.context basis.now) to) }
{
    let _to = to;
    let alloc = basis.allocator();
    let Some(serial) = basis.root() else {
        let packet = nil_packet(alloc)?;
        return Ok(packet);
    };
    let Some(class) = basis.own_class(serial) else {
        let packet = nil_packet(alloc)?;
        return Ok(packet);
    };
    let packet = own_packet(alloc, serial, class)?;
    Ok(packet)
}
