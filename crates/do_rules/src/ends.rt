//! How a node closes an end, and gives up a call.
pub(crate) mod closing;
mod peers;
pub(crate) mod time_out;
