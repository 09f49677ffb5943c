//! The network of a world as the machine that records are woven on.

use do_base::{Event, NodeId};
use do_machine::Outcome;
use do_net::{Hosted, Net};
use do_weave::Machine;
use std::alloc::AllocError;

/// A network of sites as a machine: it stands for the states that the network stands for. What its
/// sites send one another is let go.
#[derive(Drop)]
pub(crate) struct WovenNet<S: Hosted> {
    /// The network.
    pub net: Net<S>,
}

impl<S: Hosted> Machine for WovenNet<S> {
    ghost use Rattle.do_node.specs.WovenNet.{IsMachine};

    ghost stands_for = { λ m R state. IsMachine S.seen (S.Acts.act m.net.acts) m.net R state };

    fn can_take(&self, node: NodeId, from: NodeId) -> bool {
        self.net.can_take(node, from)
    }

    fn step(&mut self, event: &Event) -> Result<Outcome, AllocError> {
        let outcome = self.net.step(event)?;
        self.net.clear_wires();
        Ok(outcome)
    }
}
