//! Rows of the parts of a site: a pool, exports, a store, imports and a stack.

mod answers;
mod arguments;
mod exports;
mod imports;
mod pool;
mod stack;
mod store;

use crate::parts::exports::ExportCalls;
use crate::parts::imports::ImportCalls;
use crate::parts::pool::PoolCalls;
use crate::parts::stack::StackCalls;
use crate::parts::store::StoreCalls;
use call_rows::play_file;
use do_base::{NodeId, Text};
use std::test::Fail;

/// Plays the rows of each part, of the site at port 7001.
pub(crate) fn play_parts(rt: &HostRuntime, report: &mut Text) -> Result<(), Fail> {
    let alloc = rt.alloc();
    let own = NodeId::new(7001).ok_or("no node")?;
    play_file(rt, "pool.rows", PoolCalls::new(alloc, 0)?, report)?;
    play_file(rt, "exports.rows", ExportCalls::new(alloc), report)?;
    play_file(rt, "store.rows", StoreCalls::new(alloc, own)?, report)?;
    play_file(rt, "imports.rows", ImportCalls::new(alloc, own), report)?;
    play_file(rt, "stack.rows", StackCalls::new(alloc)?, report)
}
