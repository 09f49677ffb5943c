//! What is handed inputs.

use do_base::{NodeId, Shown, Text};
use do_network::{Done, Input};
use std::alloc::AllocError;

/// A site, as one sees it that hands it inputs. Its port is 7001.
pub(crate) trait Player {
    /// Does one input.
    fn hand(&mut self, input: &Input) -> Result<Done, AllocError>;

    /// Takes out the oldest that was sent, appends its bytes, and tells the peer that it goes to.
    fn next_frame(&mut self, bytes: &mut Text) -> Result<Option<NodeId>, AllocError>;

    /// Takes out the oldest that was shown.
    fn next_shown(&mut self) -> Option<Shown>;

    /// Adds what a check lists of it.
    fn push_listed(&self, out: &mut Text) -> Result<(), AllocError>;
}
