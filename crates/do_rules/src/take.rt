//! What an item that is taken does to the node that takes it.
pub(crate) mod answer;
pub(crate) mod arrival;
pub(crate) mod awaiting;
pub(crate) mod holding;
pub(crate) mod judging;
pub(crate) mod lines;
pub(crate) mod messages;
pub(crate) mod root;
pub(crate) mod ruling;
