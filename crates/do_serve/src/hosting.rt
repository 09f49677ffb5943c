//! A site of a network as a node's own state that is served.
ghost use Rattle.std.specs.Prelude.{map};
ghost use Rattle.do_net.specs.Seen.{Seen};
ghost use Rattle.do_serve.specs.Hosting.{outgoing, resting, site_rules};

use crate::site::Serving;
use do_base::{NodeId, Shown, Text};
use do_net::{Hosted, Runnable};
use do_network::{Done, Input};
use std::alloc::AllocError;

impl<S: Runnable> Serving for S {
    ghost Part = { Seen };

    ghost rules = { site_rules };

    ghost part = { λ s. resting (S.seen s) };

    ghost frames = { λ s. map outgoing (S.seen s).frames };

    ghost shown = { λ s. (S.seen s).shown };

    fn handle(&mut self, input: &Input) -> Result<Done, AllocError> {
        <S as Hosted>::handle(self, input)
    }

    fn next_frame(&mut self, buf: &mut Text) -> Result<Option<NodeId>, AllocError> {
        <S as Hosted>::next_frame(self, buf)
    }

    fn next_shown(&mut self) -> Option<Shown> {
        <S as Hosted>::next_shown(self)
    }

    fn can_act(&self) -> bool {
        <S as Runnable>::can_act(self)
    }

    fn can_take(&self, from: NodeId) -> bool {
        <S as Hosted>::can_take(self, from)
    }

    fn is_idle(&self) -> bool {
        <S as Runnable>::is_idle(self)
    }

    fn is_open(&self, peer: NodeId) -> bool {
        <S as Hosted>::is_open(self, peer)
    }
}
