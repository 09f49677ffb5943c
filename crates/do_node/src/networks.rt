//! The network of a world.
ghost use Rattle.std.specs.{Prelude.{◌≡◌, ◌<◌, [], IfOk, length}, List.AllByRecursion};
ghost use Rattle.do_machine.specs.World.{opening};
ghost use Rattle.do_native.specs.Acts.{native_act};
ghost use Rattle.do_net.specs.{Net.{Stands, network}, OneMachine.StandsFor};
ghost use Rattle.do_network.specs.Net.{net_opening};
ghost use Rattle.do_given.specs.Parts.{behaviour_of};
ghost use Rattle.do_world.specs.Sound.{IsSound};

use do_given::{Parts, parts_of};
use do_machine::{Seats, Shared};
use do_native::Native;
use do_net::{Hosted, Makers, Net};
use do_world::World;
use std::alloc::{AllocError, Global};

/// What decides the acts of each node: all share one.
#[tactic(auto, using(crate::proofs::OpenedNetwork::shares_more))]
fn makers_of(acts: &Shared<Native>, nodes: &Seats) -> Result<Makers<Native>, AllocError>
    ensures each { IfOk result (λ makers. length makers ≡ length nodes.now) }
    ensures one { IfOk result (AllByRecursion (λ m. m ≡ acts.now)) }
{
    let mut makers = Makers::new(nodes.allocator());
    for _node in nodes.as_slice() {
        makers.push(acts.clone()?)?;
    }
    Ok(makers)
}

/// The network of a world with these parts, before its first event.
pub fn net_of<S: Hosted<Acts = Native>>(parts: Parts) -> Result<Net<S>, AllocError>
    requires { 0 < length parts.nodes }
    ensures stands { IfOk result (λ net. Stands S.seen (native_act net.acts) net) }
    ensures table { IfOk result (λ net. net.table ≡ parts.table) }
    ensures acts { IfOk result (λ net. net.acts ≡ parts.acts) }
    ensures net { IfOk result
        (λ net. network S.seen net ≡ net_opening parts.table parts.nodes) }
    ensures sent { IfOk result (λ net. net.wires.items ≡ []) }
{
    let Parts { table, acts, nodes } = parts;
    let makers = makers_of(&acts, &nodes)?;
    Net::new(table, &nodes, &makers)
}

/// The network of a world before its first event. It stands for the opening of the one machine.
pub(crate) fn world_net<S: Hosted<Acts = Native>>(
    alloc: Global,
    world: World,
) -> Result<Net<S>, AllocError>
    requires { IsSound world }
    ensures stands { IfOk result (λ net. Stands S.seen (native_act net.acts) net) }
    ensures table { IfOk result (λ net. net.table ≡ world.table) }
    ensures acts { IfOk result (λ net. net.acts ≡ behaviour_of world) }
    ensures net { IfOk result (λ net. network S.seen net ≡ net_opening world.table world.nodes) }
    ensures one_machine { IfOk result (λ net.
        StandsFor world.table (native_act (behaviour_of world)) (network S.seen net)
        (opening world.table world.nodes)) }
{
    let parts = parts_of(alloc, world)?;
    net_of(parts)
}
