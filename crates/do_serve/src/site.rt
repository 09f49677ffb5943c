//! A node's own state as its server sees it.
//!
//! The node's own state is a trait with its rules as one of its members. So serving is proved
//! without the parts of a site, and a site without serving. A site that a network runs meets it
//! by two calls more, whether it can act and whether it is idle (`Runnable`).
ghost use Rattle.std.specs.Prelude.{◌≡◌, ◌∷◌, ◌++◌, [], List, MatchOption, IfOk, IsOk, OnErr};
ghost use Rattle.do_net.specs.Seen.{GivesBack};

use do_base::{NodeId, Shown, Text};
use do_network::{Done, Input};
use std::alloc::AllocError;

/// A node's own state, which takes inputs one at a time.
///
/// Its ghost members are the type of the state that its rules go over, these rules, the state, and
/// the frames and the shown lines that wait to be fetched.
pub trait Serving {
    ghost use Rattle.do_base.specs.declared.events.shown.Shown.{Shown};
    ghost use Rattle.do_serve.specs.Rules.{Rules, Outgoing, IsAfter, HasFetched};

    ghost Part: { Type 0 };

    ghost rules: { Rules Part };

    ghost part: { Self → Part };

    ghost frames: { Self → List Outgoing };

    ghost shown: { Self → List Shown };

    /// Does the step of an input, and appends what it sends and shows.
    ///
    /// If memory runs out nothing changed. It does not for an input by which something is given
    /// back, or an end closes, where no line waits to be fetched.
    fn handle(&mut self, input: &Input) -> Result<Done, AllocError>
        ensures ok { IfOk result (λ done. IsAfter (rules.step (part self.old) input.now)
            done (part self.new) (frames self.old) (frames self.new)
            (shown self.old) (shown self.new)) }
        ensures settles { GivesBack input.now → shown self.old ≡ [] → IsOk result }
        ensures err { OnErr result ((part self.new ≡ part self.old)
            × (frames self.new ≡ frames self.old) × (shown self.new ≡ shown self.old)) };

    /// Takes out the oldest frame that waits, and appends its bytes. None exactly where none waits.
    ///
    /// If memory runs out it waits on.
    fn next_frame(&mut self, buf: &mut Text) -> Result<Option<NodeId>, AllocError>
        ensures part { part self.new ≡ part self.old }
        ensures shown { shown self.new ≡ shown self.old }
        ensures ok { IfOk result (λ to. HasFetched (frames self.old) (frames self.new)
            buf.old buf.new to) }
        ensures err { OnErr result (frames self.new ≡ frames self.old) };

    /// Takes out the oldest line that was shown. None exactly where none waits.
    fn next_shown(&mut self) -> Option<Shown>
        ensures part { part self.new ≡ part self.old }
        ensures frames { frames self.new ≡ frames self.old }
        ensures line { MatchOption result ((shown self.old ≡ []) × (shown self.new ≡ []))
            (λ line. shown self.old ≡ line ∷ shown self.new) };

    /// Whether the top invocation can act.
    fn can_act(&self) -> bool
        ensures { result ≡ rules.can_act (part self.now) };

    /// Whether the node takes from a peer.
    fn can_take(&self, from: NodeId) -> bool
        ensures { result ≡ rules.can_take (part self.now) from };

    /// Whether the node has no invocation.
    fn is_idle(&self) -> bool
        ensures { result ≡ rules.is_idle (part self.now) };

    /// Whether the end towards a peer is open.
    fn is_open(&self, peer: NodeId) -> bool
        ensures { result ≡ rules.is_open (part self.now) peer };
}
