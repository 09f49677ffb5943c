//! What a network names.
ghost use Rattle.std.specs.{Prelude.{◌≡◌, ◌||◌, IfOk, OnOk}, List.flat_map};
ghost use Rattle.do_base.specs.names.Names.{ObjectName};
ghost use Rattle.do_lost.specs.Named.{named};
ghost use Rattle.do_machine.specs.declared.state.State.{State};
ghost use Rattle.do_net.specs.{Net.{Stands, network}, OneMachine.StandsFor};
ghost use Rattle.do_net_named.specs.Named.{net_named, part_names};
ghost use Rattle.do_network.specs.{Net.part_at, Snapshot.net_snapshot};
ghost use Rattle.do_packet.specs.Met.{has_object};

use crate::told::push_told;
use crate::ways::push_ways;
use do_base::{NodeId, Oids, Peers};
use do_machine::Snapshot;
use do_net::Net;
use do_traced::Traced;
use std::alloc::AllocError;

/// Appends what the node of a port names beside slots.
fn push_site<S: Traced>(objects: &mut Oids, net: &Net<S>, port: NodeId) -> Result<(), AllocError>
    ensures { OnOk result ((o : ObjectName) → has_object objects.new o
        ≡ (has_object objects.old o
        || has_object (part_names (part_at (network S.seen net.now) port)) o)) }
{
    match net.site(port) {
        Some(site) => objects.append(site.named()?),
        None => Ok(()),
    }
}

/// Appends what the nodes of these ports name beside slots.
fn push_sites<S: Traced>(objects: &mut Oids, net: &Net<S>, ports: &Peers) -> Result<(), AllocError>
    ensures { OnOk result ((o : ObjectName) → has_object objects.new o
        ≡ (has_object objects.old o || has_object (flat_map (λ port.
        part_names (part_at (network S.seen net.now) port)) ports.now) o)) }
{
    for port in ports.as_slice() {
        push_site(objects, net, *port)?;
    }
    Ok(())
}

/// The objects that a network names beside the slots of stored objects: those that its nodes name,
/// those that what is under way names, and those of which ends that closed tell. One may stand
/// there more than once.
///
/// `listed` is what a check lists of the network. An error means that memory ran out, now or in a
/// step before.
pub fn named<S: Traced>(net: &Net<S>, listed: &Snapshot) -> Result<Oids, AllocError>
    requires stands { Stands S.seen (S.Acts.act net.now.acts) net.now }
    requires listed { listed.now ≡ net_snapshot (network S.seen net.now) }
    ensures names { IfOk result (λ objects. (o : ObjectName) → has_object objects o
        ≡ has_object (net_named net.now.table (network S.seen net.now)) o) }
    ensures one_machine { (state : State) →
        StandsFor net.now.table (S.Acts.act net.now.acts) (network S.seen net.now) state →
        IfOk result (λ objects. (o : ObjectName) →
        has_object objects o ≡ has_object (named state) o) }
{
    if net.is_spent() {
        return Err(AllocError);
    }
    let ports = net.ports()?;
    let mut objects = Oids::new(ports.allocator());
    push_sites(&mut objects, net, &ports)?;
    push_ways(&mut objects, net, &ports)?;
    push_told(&mut objects, net, listed)?;
    Ok(objects)
}
