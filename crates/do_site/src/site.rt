//! A site: what a caller sees of it.
mod naming;

ghost use Rattle.std.specs.Prelude.{[], ◌≡◌, ◌==◌, IfOk, IsOk, OnErr, length};
ghost use Rattle.std.specs.Result.{result_map_both};
ghost use Rattle.do_machine.specs.{State.is_open, take.Take.can_take};
ghost use Rattle.do_net.specs.Seen.{FetchesFrame, FetchesShown, FetchesSpelled, GivesBack, at_rest};
ghost use Rattle.do_net.specs.Turns.{can_act};
ghost use Rattle.do_network.specs.{Net.opening_part, Site.enabled_input, Snapshot.part_line};
ghost use Rattle.do_site.specs.Steps.{Handles, done_told, part_of, seen_of};

use crate::listing::line;
use crate::opening::opening;
use crate::work::Work;
use do_base::{NodeId, Peers, Shown, Text};
use do_behave::{Behaviour, InvState};
use do_class::{ClassId, ClassTable};
use do_machine::{NodeLine, Seat, Shared};
use do_network::{Done, Input};
use std::alloc::AllocError;
use std::marker::Model;

/// One node of a network: it knows of the other nodes what it counts, and speaks with them by
/// frames.
///
/// Contracts see the classes, what decides the acts, and what its steps change. Classes and acts
/// are shared with other sites.
#[derive(Drop)]
pub struct Site<B: Behaviour + Drop> {
    table: Shared<ClassTable>,
    acts: Shared<B>,
    work: Work,
}

impl<B: Behaviour + Drop> Model for Site<B> {
    ghost use Rattle.do_class.specs.contracts.table.ClassTable as classes;
    ghost use Rattle.do_site.specs.contracts.work.Work as works;
    ghost use Rattle.do_site.specs.Sited.{Sited, sited_code};

    ghost Value = { Sited B };

    ghost coded = { sited_code classes.the_row.coded B.code works.the_row.coded };

    ghost use Rattle.do_site.specs.{Kept.IsKept, Room.CanSettle};

    ghost view = { λ s. record { table = s.table; acts = s.acts; work = s.work } };

    ghost invariant = { λ s. IsKept s.table s.work × CanSettle s.work };
}

/// What an input comes to that was done or not.
fn done_told(moved: Result<bool, AllocError>) -> Result<Done, AllocError>
    ensures { result ≡ result_map_both done_told (λ e. e) moved }
{
    match moved {
        Ok(true) => Ok(Done::Moved),
        Ok(false) => Ok(Done::Skipped),
        Err(AllocError) => Err(AllocError),
    }
}

impl<B: Behaviour + Drop> Site<B> {
    /// The site of a node with a root of this class, in a network of these ports, before its first
    /// input. The end towards each port but its own is open.
    ///
    /// An error means that memory ran out, or that there are more than 64 other ports, or one of
    /// them twice.
    pub fn new(
        node: NodeId,
        root: ClassId,
        peers: &Peers,
        table: Shared<ClassTable>,
        acts: Shared<B>,
    ) -> Result<Site<B>, AllocError>
        ensures { IfOk result (λ s. seen_of s.table (B.act s.acts) s.work.core
            ≡ at_rest table (B.act acts) (opening_part table peers.now
            (record { node = node; root = root }))) }
    {
        let work = opening(table.get(), Seat { node, root }, peers)?;
        Ok(Site { table, acts, work })
    }

    /// Does one input: a step of the node, whose frames and lines are put behind those that wait.
    ///
    /// `Skipped` comes exactly where the input is not enabled, and nothing changes. `Closed` comes
    /// exactly where a frame is none that its peer may send, and the end towards the peer is closed
    /// then. An error means that memory ran out, or that a number would pass what a site can count;
    /// what the site has, and what waits, is then as before.
    ///
    /// A frame of kind 10, 11 or 12, a close and the end of a connection take no memory, so that
    /// what is held and lent can always be given back: no error comes of them where no line waits,
    /// however many frames do.
    #[inline(always)]
    pub fn handle(&mut self, input: &Input) -> Result<Done, AllocError>
        ensures settles { GivesBack input.now → self.old.work.core.streams.shown ≡ []
            → IsOk result }
        ensures handles { Handles (seen_of self.old.table (B.act self.old.acts) self.old.work.core)
            (seen_of self.new.table (B.act self.new.acts) self.new.work.core) result
            (enabled_input self.old.table (B.act self.old.acts) (part_of self.old.work.core)
            input.now) }
    {
        let table = self.table.get();
        match input {
            Input::Run => done_told(self.work.run(table, self.acts.get())),
            Input::Start { selector, values } => {
                done_told(self.work.start(table, selector, values))
            }
            Input::Frame(from, raw) => self.work.take(table, *from, raw),
            Input::Close(peer) => done_told(self.work.close_if_open(*peer)),
            Input::Ended(peer) => done_told(self.work.end_if_taken(*peer)),
            Input::Timeout => done_told(self.work.time_out()),
        }
    }

    /// Takes out the oldest frame that waits, or the greeting before it, appends its bytes, and
    /// tells the peer that it goes to. None exactly where nothing waits.
    ///
    /// If memory runs out, or the oldest frame has no spelling that its peer can read, the site is
    /// as before.
    pub fn next_frame(&mut self, bytes: &mut Text) -> Result<Option<NodeId>, AllocError>
        ensures ok { IfOk result (λ to. FetchesFrame
            (seen_of self.old.table (B.act self.old.acts) self.old.work.core)
            (seen_of self.new.table (B.act self.new.acts) self.new.work.core)
            bytes.old bytes.new to) }
        ensures spelled { IfOk result (λ to. FetchesSpelled
            (seen_of self.old.table (B.act self.old.acts) self.old.work.core)
            (seen_of self.new.table (B.act self.new.acts) self.new.work.core) to) }
        ensures err { OnErr result
            (seen_of self.new.table (B.act self.new.acts) self.new.work.core
            ≡ seen_of self.old.table (B.act self.old.acts) self.old.work.core) }
    {
        let table = self.table.get();
        let me = self.work.core.part.port();
        self.work.core.streams.next_frame(table, me, bytes)
    }

    /// Takes out the oldest line that waits. None exactly where nothing waits.
    pub fn next_shown(&mut self) -> Option<Shown>
        ensures { FetchesShown
            (seen_of self.old.table (B.act self.old.acts) self.old.work.core)
            (seen_of self.new.table (B.act self.new.acts) self.new.work.core) result }
    {
        self.work.core.streams.next_shown()
    }

    /// Whether the top invocation can act or use an answer.
    pub fn can_act(&self) -> bool
        ensures { result ≡ can_act self.now.work.core.part.own.node.stack }
    {
        match self.work.core.part.top() {
            Some(top) => matches!(&top.state, InvState::Running | InvState::Answered(_)),
            None => false,
        }
    }

    /// Whether a frame of a peer can be taken.
    pub fn can_take(&self, from: NodeId) -> bool
        ensures { result ≡ can_take from self.now.work.core.part.own.node }
    {
        self.work.core.part.can_take(from)
    }

    /// Whether the node has no invocation.
    pub fn is_idle(&self) -> bool
        ensures { result ≡ (length self.now.work.core.part.own.node.stack == 0) }
    {
        self.work.core.part.depth() == 0
    }

    /// Whether the end towards a peer is open.
    pub fn is_open(&self, peer: NodeId) -> bool
        ensures { result ≡ is_open self.now.work.core.part.own.node peer }
    {
        self.work.core.part.is_open(peer)
    }

    /// The site, as a check lists it.
    pub fn snapshot(&self) -> Result<NodeLine, AllocError>
        ensures { IfOk result (λ line. line ≡ part_line (part_of self.now.work.core)) }
    {
        line(&self.work.core)
    }
}
