//! What a network needs of its sites.
//!
//! A site is whatever meets the trait `Hosted`, each call an equation of the definitions;
//! do_net knows no other thing of it.
ghost use Rattle.std.specs.Prelude.{[], ◌≡◌, IfOk, IsOk, OnErr};
ghost use Rattle.do_machine.specs.{State.is_open, take.Take.can_take};
ghost use Rattle.do_network.specs.{Net.opening_part, Snapshot.part_line};
ghost use Rattle.do_net.specs.Seen.{Seen, at_rest, site_handled, with_handled, FetchesFrame};
ghost use Rattle.do_net.specs.Seen.{FetchesShown, FetchesSpelled, GivesBack};

use do_base::{NodeId, Peers, Shown, Text};
use do_behave::Behaviour;
use do_class::ClassTable;
use do_machine::{NodeLine, Seat, Shared};
use do_network::{Done, Input};
use std::alloc::AllocError;

/// A site: a node that shares nothing with the other nodes, and knows of them what it counts.
///
/// What an input does to it is the definition of do_network. An implementation tells, as `seen`,
/// its classes, its acts and its part, and what it sent and showed that nobody fetched yet.
pub trait Hosted: Drop + Sized {
    /// What decides the acts of its objects.
    type Acts: Behaviour + Drop;

    ghost seen: { Self → Seen };

    /// The site of a seat before its first input, in a network of these ports, its own among them.
    ///
    /// The end towards each of the others is open. The site shares the classes and what decides the
    /// acts. The one error is that memory ran out.
    fn open(
        table: &Shared<ClassTable>,
        acts: &Shared<Self::Acts>,
        seat: Seat,
        ports: &Peers,
    ) -> Result<Self, AllocError>
        ensures { IfOk result (λ s. seen s ≡
            at_rest table.now (Self.Acts.act acts.now) (opening_part table.now ports.now seat)) };

    /// Does one input, and keeps what it sends and shows behind what nobody fetched yet.
    ///
    /// The one error is that memory ran out, or that a number would pass what the site can count;
    /// the site is then as before. No error comes of an input by which something is given back, or
    /// an end closes, where no line waits to be fetched, however many frames do.
    fn handle(&mut self, input: &Input) -> Result<Done, AllocError>
        ensures done { IfOk result (λ done.
            done ≡ (site_handled (seen self.old) input.now).done) }
        ensures site { IfOk result (λ done. seen self.new
            ≡ with_handled (seen self.old) (site_handled (seen self.old) input.now)) }
        ensures settles { GivesBack input.now → (seen self.old).shown ≡ [] → IsOk result }
        ensures err { OnErr result (seen self.new ≡ seen self.old) };

    /// Takes out the oldest that was sent, a greeting or a frame, appends its bytes, and tells the
    /// peer that it goes to. None exactly where nothing is left.
    ///
    /// The one error is that memory ran out, or that a frame has no spelling; the site is then as
    /// before.
    fn next_frame(&mut self, bytes: &mut Text) -> Result<Option<NodeId>, AllocError>
        ensures ok { IfOk result (λ to.
            FetchesFrame (seen self.old) (seen self.new) bytes.old bytes.new to) }
        ensures spelled { IfOk result (λ to. FetchesSpelled (seen self.old) (seen self.new) to) }
        ensures err { OnErr result (seen self.new ≡ seen self.old) };

    /// Takes out the oldest that was shown. None exactly where nothing is left.
    fn next_shown(&mut self) -> Option<Shown>
        ensures { FetchesShown (seen self.old) (seen self.new) result };

    /// Whether it can take a frame of a peer.
    fn can_take(&self, from: NodeId) -> bool
        ensures { result ≡ can_take from (seen self.now).part.own.node };

    /// Whether the end towards a peer is open.
    fn is_open(&self, peer: NodeId) -> bool
        ensures { result ≡ is_open (seen self.now).part.own.node peer };

    /// The site, as a check lists it.
    fn snapshot(&self) -> Result<NodeLine, AllocError>
        ensures { IfOk result (λ line. line ≡ part_line (seen self.now).part) };
}
