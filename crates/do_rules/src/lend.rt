//! Lends, and what a node that was lent an object does.
pub(crate) mod asking;
pub(crate) mod lending;
