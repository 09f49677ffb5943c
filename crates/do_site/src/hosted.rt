//! A site of a network.
use crate::site::Site;
use do_base::{NodeId, Peers, Shown, Text};
use do_behave::Behaviour;
use do_class::ClassTable;
use do_machine::{NodeLine, Seat, Shared};
use do_net::{Hosted, Runnable};
use do_network::{Done, Input};
use std::alloc::AllocError;

impl<B: Behaviour + Drop> Hosted for Site<B> {
    type Acts = B;

    ghost use Rattle.do_site.specs.Steps.{seen_of};

    ghost seen = { λ s. seen_of s.table (B.act s.acts) s.work.core };

    fn open(
        table: &Shared<ClassTable>,
        acts: &Shared<B>,
        seat: Seat,
        ports: &Peers,
    ) -> Result<Site<B>, AllocError> {
        Site::new(seat.node, seat.root, ports, table.clone()?, acts.clone()?)
    }

    #[inline(always)]
    fn handle(&mut self, input: &Input) -> Result<Done, AllocError> {
        Site::handle(self, input)
    }

    fn next_frame(&mut self, bytes: &mut Text) -> Result<Option<NodeId>, AllocError> {
        Site::next_frame(self, bytes)
    }

    fn next_shown(&mut self) -> Option<Shown> {
        Site::next_shown(self)
    }

    fn can_take(&self, from: NodeId) -> bool {
        Site::can_take(self, from)
    }

    fn is_open(&self, peer: NodeId) -> bool {
        Site::is_open(self, peer)
    }

    fn snapshot(&self) -> Result<NodeLine, AllocError> {
        Site::snapshot(self)
    }
}

impl<B: Behaviour + Drop> Runnable for Site<B> {
    fn can_act(&self) -> bool {
        Site::can_act(self)
    }

    fn is_idle(&self) -> bool {
        Site::is_idle(self)
    }
}
