//! Serving one node over a link: its turns, each the first that is possible, and its record.
//!
//! It stands on the links of do_link, the frames of do_frames, the starts of do_plan, the lines of
//! do_lines and the inputs of do_network. A node's own state is a trait, which each site of do_net
//! meets that is `Runnable`. It promises that the record is that of the turns over what the link
//! told, that each frame was handed over once and in order, and why it ended. The forms are this
//! project's own.
//!
//! Serving is defined as a function over the list that a link tells, `serve_from`, and the
//! contract says that there is such a list. Where the link tells one, as a link over sockets
//! does, it is that list: the record is that of turns over the events that the link gave.
#![tactic(auto)]

mod entering;
mod far;
mod fars;
mod hearing;
mod hosting;
mod log;
mod rounds;
mod serving;
mod site;
mod turning;

pub use serving::{ServeEnd, serve};
pub use site::Serving;
