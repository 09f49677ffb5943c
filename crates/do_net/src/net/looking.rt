//! What a caller sees of a network: its ports, its sites, and what stands in its lanes.
ghost use Rattle.std.specs.Prelude.{◌≡◌, IfOk, IfSome, false, map, option_map};
ghost use Rattle.std.specs.Option.{option_copied};
ghost use Rattle.do_machine.specs.run.Run.{Acting};
ghost use Rattle.do_network.specs.Net.{channel, net_ports, part_at};
ghost use Rattle.do_net.specs.{Hosts.net_is_open, Net.{Stands, network}};

use super::Net;
use crate::hosted::Hosted;
use crate::hosts::{host_at, host_in, is_open};
use crate::lane::Lane;
use do_base::{NodeId, Peers};
use do_class::ClassTable;
use do_ported::Ported;
use std::alloc::{AllocError, Global};

impl<S: Hosted> Net<S> {
    /// The classes of the world.
    pub fn classes(&self) -> &ClassTable
        ensures { result.now ≡ self.now.table }
    {
        self.table.get()
    }

    /// Whether a step ran out of memory, or could not be done for another want: the network is
    /// then no more that of the definitions.
    pub fn is_spent(&self) -> bool
        ensures { result ≡ self.now.spent }
    {
        self.spent
    }

    /// The allocator that the network was made with.
    pub fn allocator(&self) -> Global {
        self.hosts.items.allocator()
    }

    /// The ports of the nodes, rising.
    pub fn ports(&self) -> Result<Peers, AllocError>
        ensures { IfOk result (λ ports. ports ≡ net_ports (network S.seen self.now)) }
    {
        let mut ports = Peers::new(self.allocator());
        for host in self.hosts.items.as_slice() {
            ports.push(host.port())?;
        }
        Ok(ports)
    }

    /// The site of a port. None exactly where there is none.
    pub fn site(&self, port: NodeId) -> Option<&S>
        ensures part { option_map (λ s. (S.seen s).part) (option_copied result)
            ≡ part_at (network S.seen self.now) port }
        ensures table { (act : Acting) → Stands S.seen act self.now → self.now.spent ≡ false →
            IfSome (option_copied result) (λ s. (S.seen s).table ≡ self.now.table) }
    {
        match host_at(&self.hosts, port) {
            Some(at) => Some(host_in(&self.hosts, at).site()),
            None => None,
        }
    }

    /// What stands between one node and another. None exactly where there is no lane between them.
    pub fn lane(&self, from: NodeId, to: NodeId) -> Option<&Lane>
        ensures { option_copied result ≡ channel (network S.seen self.now) from to }
    {
        match host_at(&self.hosts, from) {
            Some(at) => host_in(&self.hosts, at).lane(to),
            None => None,
        }
    }

    /// Whether the end of a node towards another is open.
    pub fn is_open(&self, node: NodeId, peer: NodeId) -> bool
        ensures { result ≡ net_is_open (network S.seen self.now) node peer }
    {
        is_open(&self.hosts, node, peer)
    }
}
