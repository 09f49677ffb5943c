//! Rows of messages as bytes: frames, packets and what these name, and streams of frames.

mod changed;
mod loads;
mod messages;
mod reading;
mod streams;

pub(crate) use crate::codec::loads::empty;
use crate::codec::messages::MessageCalls;
use crate::codec::streams::StreamCalls;
use call_rows::play_file;
use do_base::Text;
use std::test::Fail;

/// Plays the rows of what reads and writes messages.
pub(crate) fn play_codec(rt: &HostRuntime, report: &mut Text) -> Result<(), Fail> {
    let alloc = rt.alloc();
    play_file(rt, "frames.rows", MessageCalls::new(alloc)?, report)?;
    play_file(rt, "packets.rows", MessageCalls::new(alloc)?, report)?;
    play_file(rt, "changed.rows", MessageCalls::new(alloc)?, report)?;
    play_file(rt, "names.rows", MessageCalls::new(alloc)?, report)?;
    play_file(rt, "streams.rows", StreamCalls::new(alloc), report)
}
