//! Links between processes as they are: sockets of this machine.
//!
//! It stands on the trait of do_link, on std's net and clock, and on mio, which waits for sockets.
//! It promises the trait's clauses on faults and empty polls; no contract can see what a socket
//! gives. The form of the streams is this project's own.
#![tactic(auto)]

mod asking;
mod connecting;
mod hearing;
mod outbox;
mod peer;
mod reading;
mod sending;
mod spinning;
mod strangers;
mod streams;
mod tcp_link;
mod timing;
mod waiter;

pub use connecting::connect_once;
pub use tcp_link::TcpLink;
pub use timing::Deadline;
