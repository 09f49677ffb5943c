//! What an event does to the sites of a network.
ghost use Rattle.do_network.specs.declared.wire.Wire as sent;
ghost use Rattle.std.specs.Prelude.{◌≡◌, ◌==◌, ◌<◌, List, IfOk, IfSome, Some, length, position, []};
ghost use Rattle.std.specs.{Prelude.{slice_get, true}, List.{list_all, AllByRecursion}};
ghost use Rattle.do_class.specs.Class.{Class};
ghost use Rattle.do_machine.specs.run.Run.{Acting};
ghost use Rattle.do_base.specs.declared.events.event.Event.TheVariants.{Lose, Take};
ghost use Rattle.do_network.specs.{Snapshot.net_snapshot, Spelled.{HandsSpelled, SendsSpelled}};
ghost use Rattle.do_network.specs.Step.{input_of, net_step};
ghost use Rattle.do_net.specs.Hosts.{Goes, HasFetched, NetAdvances, Rests, hostings, net_can_take};
ghost use Rattle.do_net.specs.{Hosts.{net_handed, net_is_open, net_of}, Lanes.carried_of};

use crate::by_port::Hosts;
use crate::host::Host;
use crate::hosted::Hosted;
use crate::lane::{Kept, frame_in};
use do_base::{Event, NodeId, Reserved, ShownList};
use do_machine::{NodeLines, Outcome, Snapshot};
use do_network::{Input, Wire};
use do_ported::place_of;
use std::alloc::{AllocError, Global};

/// Where the site of a port stands.
pub(crate) fn host_at<S: Hosted>(hosts: &Hosts<S>, port: NodeId) -> Option<usize>
    ensures index { result ≡ position (λ x. port == x.port) hosts.now.items }
    ensures within { IfSome result (λ at. at < length hosts.now.items) }
{
    place_of(&hosts.items, port)
}

/// The site at a place.
#[tactic(auto, using(std::proofs::lemmas::Option::slice_get_read))]
pub(crate) fn host_in<S: Hosted>(hosts: &Hosts<S>, at: usize) -> &Host<S>
    requires { at < length hosts.now.items }
    ensures { slice_get hosts.now.items at ≡ Some result.now }
{
    &hosts.items.as_slice()[at]
}

/// An event of which nothing is shown.
fn shows_nothing(alloc: Global, enabled: bool) -> Outcome
    ensures { result ≡ record { enabled = enabled; shown = [] } }
{
    Outcome {
        enabled,
        shown: ShownList::new(alloc),
    }
}

/// The site of a port is handed an input.
#[inline(always)]
fn hand<S: Hosted>(
    hosts: &mut Hosts<S>,
    port: NodeId,
    input: &Input,
    wires: &mut Reserved<Wire>,
) -> Result<Outcome, AllocError>
    requires { AllByRecursion HasFetched (hostings S.seen hosts.old) }
    ensures { (table : List Class) (act : Acting) →
        AllByRecursion (Rests table act) (hostings S.seen hosts.old) →
        IfOk result (λ outcome. Goes table act (hostings S.seen hosts.new) wires.old.items
        wires.new.items outcome
        (net_handed table act (net_of (hostings S.seen hosts.old)) port input.now)
        (HandsSpelled table act (net_of (hostings S.seen hosts.old)) port input.now)) }
{
    match host_at(hosts, port) {
        Some(at) => hosts.items.at_mut(at).hand(input, wires),
        None => Ok(shows_nothing(hosts.items.allocator(), false)),
    }
}

/// Whether a node can take what another sends it.
pub(crate) fn can_take<S: Hosted>(hosts: &Hosts<S>, port: NodeId, from: NodeId) -> bool
    ensures { result ≡ net_can_take (net_of (hostings S.seen hosts.now)) port from }
{
    match host_at(hosts, port) {
        Some(at) => host_in(hosts, at).can_take(from),
        None => false,
    }
}

/// Whether the end of a node towards another is open.
pub(crate) fn is_open<S: Hosted>(hosts: &Hosts<S>, port: NodeId, peer: NodeId) -> bool
    ensures { result ≡ net_is_open (net_of (hostings S.seen hosts.now)) port peer }
{
    match host_at(hosts, port) {
        Some(at) => host_in(hosts, at).is_open(peer),
        None => false,
    }
}

/// What a node is handed of what stands in a lane from another.
fn input_of(from: NodeId, kept: Kept) -> Input
    ensures { result ≡ input_of from (carried_of kept) }
{
    match kept {
        Kept::Frame(bytes) => Input::Frame(from, frame_in(bytes)),
        Kept::Loss => Input::Ended(from),
    }
}

/// Takes out the oldest of what stands in the lane from one node to another.
fn advance<S: Hosted>(hosts: &mut Hosts<S>, from: NodeId, to: NodeId) -> Option<Kept>
    ensures fetched { AllByRecursion HasFetched (hostings S.seen hosts.old) →
        AllByRecursion HasFetched (hostings S.seen hosts.new) }
    ensures net { (table : List Class) (act : Acting) →
        AllByRecursion (Rests table act) (hostings S.seen hosts.old) →
        NetAdvances table act (hostings S.seen hosts.old) (hostings S.seen hosts.new) from to
        result }
{
    match host_at(hosts, from) {
        Some(at) => hosts.items.at_mut(at).advance(to),
        None => None,
    }
}

/// A node is handed what was taken out of the lane from another.
fn hand_kept<S: Hosted>(
    hosts: &mut Hosts<S>,
    port: NodeId,
    from: NodeId,
    kept: Kept,
    wires: &mut Reserved<Wire>,
) -> Result<Outcome, AllocError>
    requires { AllByRecursion HasFetched (hostings S.seen hosts.old) }
    ensures { (table : List Class) (act : Acting) →
        AllByRecursion (Rests table act) (hostings S.seen hosts.old) →
        IfOk result (λ outcome. Goes table act (hostings S.seen hosts.new) wires.old.items
        wires.new.items outcome (net_handed table act (net_of (hostings S.seen hosts.old)) port
        (input_of from (carried_of kept))) (HandsSpelled table act
        (net_of (hostings S.seen hosts.old)) port (input_of from (carried_of kept)))) }
{
    let input = input_of(from, kept);
    hand(hosts, port, &input, wires)
}

/// A node that can take it takes the oldest of what stands in the lane from another.
fn take_oldest<S: Hosted>(
    hosts: &mut Hosts<S>,
    port: NodeId,
    from: NodeId,
    wires: &mut Reserved<Wire>,
) -> Result<Outcome, AllocError>
    requires fetched { AllByRecursion HasFetched (hostings S.seen hosts.old) }
    requires can { net_can_take (net_of (hostings S.seen hosts.old)) port from ≡ true }
    ensures { (table : List Class) (act : Acting) →
        AllByRecursion (Rests table act) (hostings S.seen hosts.old) →
        IfOk result (λ outcome. Goes table act (hostings S.seen hosts.new) wires.old.items
        wires.new.items outcome
        (net_step table act (net_of (hostings S.seen hosts.old)) (Take port from))
        (SendsSpelled table act (net_of (hostings S.seen hosts.old)) (Take port from))) }
{
    match advance(hosts, from, port) {
        Some(kept) => hand_kept(hosts, port, from, kept, wires),
        None => Ok(shows_nothing(hosts.items.allocator(), false)),
    }
}

/// A node takes the oldest of what stands in the lane from another.
fn take<S: Hosted>(
    hosts: &mut Hosts<S>,
    port: NodeId,
    from: NodeId,
    wires: &mut Reserved<Wire>,
) -> Result<Outcome, AllocError>
    requires { AllByRecursion HasFetched (hostings S.seen hosts.old) }
    ensures { (table : List Class) (act : Acting) →
        AllByRecursion (Rests table act) (hostings S.seen hosts.old) →
        IfOk result (λ outcome. Goes table act (hostings S.seen hosts.new) wires.old.items
        wires.new.items outcome
        (net_step table act (net_of (hostings S.seen hosts.old)) (Take port from))
        (SendsSpelled table act (net_of (hostings S.seen hosts.old)) (Take port from))) }
{
    if can_take(hosts, port, from) {
        take_oldest(hosts, port, from, wires)
    } else {
        Ok(shows_nothing(hosts.items.allocator(), false))
    }
}

/// A connection is lost behind so many of what stands in the lane from one node to another, where
/// the end of the reader is open.
fn lose<S: Hosted>(
    hosts: &mut Hosts<S>,
    from: NodeId,
    to: NodeId,
    after: u64,
) -> Result<Outcome, AllocError>
    ensures { (table : List Class) (act : Acting) (wires : List sent.Wire) →
        AllByRecursion (Rests table act) (hostings S.seen hosts.old) →
        IfOk result (λ outcome. Goes table act (hostings S.seen hosts.new) wires wires outcome
        (net_step table act (net_of (hostings S.seen hosts.old)) (Lose from to after))
        (SendsSpelled table act (net_of (hostings S.seen hosts.old)) (Lose from to after))) }
{
    let alloc = hosts.items.allocator();
    if !is_open(hosts, to, from) {
        return Ok(shows_nothing(alloc, false));
    }
    let Some(at) = host_at(hosts, from) else {
        return Ok(shows_nothing(alloc, false));
    };
    let told = hosts.items.at_mut(at).lose(to, after)?;
    Ok(shows_nothing(alloc, told))
}

/// What an event does to the sites.
#[inline(always)]
pub(crate) fn step<S: Hosted>(
    hosts: &mut Hosts<S>,
    event: &Event,
    wires: &mut Reserved<Wire>,
) -> Result<Outcome, AllocError>
    requires { AllByRecursion HasFetched (hostings S.seen hosts.old) }
    ensures { (table : List Class) (act : Acting) →
        AllByRecursion (Rests table act) (hostings S.seen hosts.old) →
        IfOk result (λ outcome. Goes table act (hostings S.seen hosts.new) wires.old.items
        wires.new.items outcome
        (net_step table act (net_of (hostings S.seen hosts.old)) event.now)
        (SendsSpelled table act (net_of (hostings S.seen hosts.old)) event.now)) }
{
    match event {
        Event::Start {
            node,
            selector,
            values,
        } => {
            let selector = selector.clone()?;
            let values = values.clone()?;
            hand(hosts, *node, &Input::Start { selector, values }, wires)
        }
        Event::Run { node } => hand(hosts, *node, &Input::Run, wires),
        Event::Take { node, from } => take(hosts, *node, *from, wires),
        Event::Close { node, peer } => hand(hosts, *node, &Input::Close(*peer), wires),
        Event::Lose { from, to, after } => lose(hosts, *from, *to, *after),
        Event::Timeout { node } => hand(hosts, *node, &Input::Timeout, wires),
        Event::Check => Ok(shows_nothing(hosts.items.allocator(), true)),
    }
}

/// The sites, as a check lists them.
pub(crate) fn snapshot<S: Hosted>(hosts: &Hosts<S>) -> Result<Snapshot, AllocError>
    ensures { IfOk result (λ listed.
        listed ≡ net_snapshot (net_of (hostings S.seen hosts.now))) }
{
    let mut nodes = NodeLines::new(hosts.items.allocator());
    for host in hosts.items.as_slice() {
        nodes.push(host.snapshot()?)?;
    }
    Ok(Snapshot { nodes })
}

/// Whether nothing stands in the lanes of sites.
pub(crate) fn are_quiet<S: Hosted>(hosts: &Hosts<S>) -> bool
    ensures { result ≡
        list_all (λ h. list_all (λ c. length c.waiting == 0) h.lanes) hosts.now.items }
{
    hosts.items.as_slice().iter().all(|host| host.is_quiet())
}
