//! `Turn` has no invocations below the one that acts, since no rule of an act looks at them.
//! Where an answer goes is data for the same reason.

use do_behave::Invocation;

/// The turn of an invocation: what its next act is judged by, and the invocation.
///
/// No rule looks at the invocations below it, so they are not here.
#[derive(Drop)]
pub struct Turn<'a, N> {
    /// What the act is judged by.
    pub basis: &'a N,
    /// The invocation that acts, on top of its node's stack.
    pub top: &'a Invocation,
}
