//! A network of sites, over its events.
//!
//! Once memory ran out each step of the network is an error, since a site may have done its
//! input without all that it sent being fetched.
//!
//! `step` of a network and of its sites, `hand`, and `handle` of a site are
//! `#[inline(always)]`. Each passes an input on and an outcome back, and is called in one or a
//! few places. As a call it writes its large result where its caller said, and the caller then
//! copies that on. Where it is inlined the result is made in its last place; callgrind counts
//! fewer instructions of a step so.
mod looking;

ghost use Rattle.std.specs.Prelude.{◌≡◌, ◌++◌, ◌<◌, IfOk, IsErr, OnErr, OnOk, Some, [], false};
ghost use Rattle.std.specs.Prelude.{length, slice_get, true};
ghost use Rattle.do_machine.specs.{World.{IsWorld, opening}, check.Snapshot.snapshot};
ghost use Rattle.do_machine.specs.declared.state.State.{State};
ghost use Rattle.do_network.specs.{Net.net_opening, Snapshot.net_snapshot, Spelled.SendsSpelled};
ghost use Rattle.do_network.specs.Step.{net_step};
ghost use Rattle.do_net.specs.{Hosts.net_can_take, Net.{AreAlike, HasSent, Stands, is_quiet}};
ghost use Rattle.do_net.specs.{Net.network, OneMachine.{StandsFor, StepsAsOne, machine_can_take}};

use crate::by_port::Hosts;
use crate::hosted::Hosted;
use crate::hosts::{are_quiet, can_take, snapshot, step};
use crate::opening::{Makers, opening};
use do_base::{Event, NodeId, Reserved};
use do_behave::Behaviour;
use do_class::ClassTable;
use do_machine::{Outcome, Seats, Shared, Snapshot};
use do_network::Wire;
use std::alloc::AllocError;

/// The first of some that decide the acts.
#[tactic(auto, using(std::proofs::lemmas::Option::slice_get_read))]
fn first_of<A: Behaviour + Drop>(makers: &Makers<A>) -> Result<Shared<A>, AllocError>
    requires { 0 < length makers.now }
    ensures { IfOk result (λ acts. slice_get makers.now 0 ≡ Some acts) }
{
    makers.as_slice()[0].clone()
}

/// All sites of a world, with what is under way between them and what was sent.
///
/// Contracts see its classes, its behaviour, its sites with their lanes, what was sent and not
/// fetched, and whether memory ran out in a step.
#[derive(Drop)]
pub struct Net<S: Hosted> {
    table: Shared<ClassTable>,
    acts: Shared<S::Acts>,
    hosts: Hosts<S>,
    wires: Reserved<Wire>,
    spent: bool,
}

impl<S: Hosted> Net<S> {
    /// The network of a world before its first event, in whatever order the nodes are listed.
    ///
    /// All sites share the classes, and each has its own of what decides its acts, or shares it;
    /// all decide alike. The one error is that memory ran out.
    pub fn new(
        table: Shared<ClassTable>,
        nodes: &Seats,
        makers: &Makers<S::Acts>,
    ) -> Result<Net<S>, AllocError>
        requires some { 0 < length makers.now }
        requires each { length makers.now ≡ length nodes.now }
        requires alike { AreAlike S.Acts.act makers.now }
        ensures stands { IfOk result (λ n. Stands S.seen (S.Acts.act n.acts) n) }
        ensures table { IfOk result (λ n. n.table ≡ table) }
        ensures acts { IfOk result (λ n. slice_get makers.now 0 ≡ Some n.acts) }
        ensures net { IfOk result (λ n. network S.seen n ≡ net_opening table nodes.now) }
        ensures one_machine { IsWorld table nodes.now → IfOk result (λ n. StandsFor table
            (S.Acts.act n.acts) (network S.seen n) (opening table nodes.now)) }
        ensures wires { IfOk result (λ n. n.wires.items ≡ []) }
        ensures fresh { IfOk result (λ n. n.spent ≡ false) }
    {
        let acts = first_of(makers)?;
        let hosts = opening(&table, nodes, makers)?;
        let wires = Reserved::new(nodes.allocator());
        Ok(Net {
            table,
            acts,
            hosts,
            wires,
            spent: false,
        })
    }

    /// Does one event. One that is not enabled shows and sends nothing and leaves the network as it
    /// was. What is sent waits for `next_wire`. Where the network stands for a state of the one
    /// machine, the event shows what it shows there, and the network then stands for the state
    /// after it.
    ///
    /// The one error is that memory ran out, that a number would pass what a site can count, or
    /// that a frame has no spelling. Each later step then answers it, and the network is no more
    /// that of the definitions.
    #[inline(always)]
    pub fn step(&mut self, event: &Event) -> Result<Outcome, AllocError>
        requires { Stands S.seen (S.Acts.act self.old.acts) self.old }
        ensures stands { Stands S.seen (S.Acts.act self.old.acts) self.new }
        ensures outcome { IfOk result (λ outcome. outcome ≡ (net_step self.old.table
            (S.Acts.act self.old.acts) (network S.seen self.old) event.now).outcome) }
        ensures net { OnOk result (network S.seen self.new ≡ (net_step self.old.table
            (S.Acts.act self.old.acts) (network S.seen self.old) event.now).net) }
        ensures wires { OnOk result (self.new.wires.items ≡ self.old.wires.items
            ++ (net_step self.old.table (S.Acts.act self.old.acts) (network S.seen self.old)
            event.now).wires) }
        ensures spelled { OnOk result (SendsSpelled self.old.table (S.Acts.act self.old.acts)
            (network S.seen self.old) event.now) }
        ensures one_machine { (state : State) → StandsFor self.old.table (S.Acts.act self.old.acts)
            (network S.seen self.old) state → IfOk result (λ outcome.
            StepsAsOne self.old.table (S.Acts.act self.old.acts) state event.now outcome
            (network S.seen self.new)) }
        ensures table { self.new.table ≡ self.old.table }
        ensures acts { self.new.acts ≡ self.old.acts }
        ensures spent { OnErr result (self.new.spent ≡ true) }
        ensures later { self.old.spent ≡ true → IsErr result }
    {
        if self.spent {
            return Err(AllocError);
        }
        self.spent = true;
        let outcome = step(&mut self.hosts, event, &mut self.wires)?;
        self.spent = false;
        Ok(outcome)
    }

    /// Takes out the oldest of what was sent. None exactly where nothing is left.
    pub fn next_wire(&mut self) -> Option<Wire>
        ensures wire { HasSent self.old.wires.items self.new.wires.items result }
        ensures table { self.new.table ≡ self.old.table }
        ensures acts { self.new.acts ≡ self.old.acts }
        ensures hosts { self.new.hosts ≡ self.old.hosts }
        ensures spent { self.new.spent ≡ self.old.spent }
    {
        self.wires.pop_front()
    }

    /// Lets go of what was sent and not taken out.
    pub fn clear_wires(&mut self)
        ensures wires { self.new.wires.items ≡ [] }
        ensures table { self.new.table ≡ self.old.table }
        ensures acts { self.new.acts ≡ self.old.acts }
        ensures hosts { self.new.hosts ≡ self.old.hosts }
        ensures spent { self.new.spent ≡ self.old.spent }
    {
        self.wires.clear();
    }

    /// Whether a node can take what another sends it: its end is open, and its stack is empty or
    /// its top waits.
    pub fn can_take(&self, node: NodeId, from: NodeId) -> bool
        ensures net { result ≡ net_can_take (network S.seen self.now) node from }
        ensures one_machine { (state : State) → StandsFor self.now.table (S.Acts.act self.now.acts)
            (network S.seen self.now) state → result ≡ machine_can_take state node from }
    {
        can_take(&self.hosts, node, from)
    }

    /// What a check lists: the sites by rising port, each with its root, its closed ends, its
    /// objects and their entries.
    pub fn snapshot(&self) -> Result<Snapshot, AllocError>
        ensures net { IfOk result (λ listed. listed ≡ net_snapshot (network S.seen self.now)) }
        ensures one_machine { (state : State) → StandsFor self.now.table (S.Acts.act self.now.acts)
            (network S.seen self.now) state → IfOk result (λ listed. listed ≡ snapshot state) }
    {
        snapshot(&self.hosts)
    }

    /// Whether nothing is under way between the nodes.
    pub fn quiet(&self) -> bool
        ensures { result ≡ is_quiet (network S.seen self.now) }
    {
        are_quiet(&self.hosts)
    }
}
