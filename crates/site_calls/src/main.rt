//! Plays rows of calls of the parts of a site, of what packs values for a peer, and of what reads
//! and writes messages as bytes. Each answer is compared with the one that stands beside the call.
//!
//! It stands on the crates of these parts, do_packet, do_coder and do_frames, and calls public
//! functions alone. The rows are files; their bytes and what they expect were worked out by hand.
//! A row whose answer is another one is printed with it; at the end of each file stands how many
//! rows it has.
#![tactic(auto)]

mod codec;
mod packing;
mod parts;

use crate::codec::play_codec;
use crate::packing::PackCalls;
use crate::parts::play_parts;
use call_rows::play_file;
use do_base::Text;
use std::io::Write;
use std::test::Fail;

fn main(rt: HostRuntime) -> Result<(), Fail> {
    let mut report = Text::new(rt.alloc());
    play_parts(&rt, &mut report)?;
    let packing = PackCalls::new(rt.alloc())?;
    play_file(&rt, "packing.rows", packing, &mut report)?;
    play_codec(&rt, &mut report)?;
    rt.stdout().write_all(report.as_slice())?;
    Ok(())
}
