//! What is asked of a site whose turns are taken one at a time.
ghost use Rattle.std.specs.Prelude.{◌≡◌, ◌==◌, length};
ghost use Rattle.do_net.specs.Turns.{can_act};

use crate::hosted::Hosted;

/// A site that says besides whether it has anything to do of its own.
pub trait Runnable: Hosted {
    /// Whether the top invocation runs or has an answer to use.
    fn can_act(&self) -> bool
        ensures { result ≡ can_act (Self.seen self.now).part.own.node.stack };

    /// Whether the site has no invocation.
    fn is_idle(&self) -> bool
        ensures { result ≡ (length (Self.seen self.now).part.own.node.stack == 0) };
}
