//! The refusal of a peer that gives back more than it has.

/// A peer gave back more names of an object than it was sent.
#[derive(Clone, Copy, Debug, PartialEq, Eq)]
pub struct OverRelease {
    /// How many names it was sent and had not given back, less than `asked`.
    pub had: u64,
    /// How many it gave back.
    pub asked: u64,
}
