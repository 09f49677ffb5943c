//! Rows of documents and of worlds.

mod classes;
mod documents;
mod faults;
mod places;
mod reading;
mod texts;

use crate::worlds::documents::DocumentCalls;
use crate::worlds::reading::WorldCalls;
use call_rows::play_file;
use do_base::Text;
use std::test::Fail;

/// Plays the rows of documents, and of the worlds that they say.
pub(crate) fn play_worlds(rt: &HostRuntime, report: &mut Text) -> Result<(), Fail> {
    let alloc = rt.alloc();
    play_file(rt, "documents.rows", DocumentCalls::new(alloc)?, report)?;
    play_file(rt, "worlds.rows", WorldCalls::new(alloc)?, report)
}
