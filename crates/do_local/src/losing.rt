//! What a lost connection does to a state.
ghost use Rattle.std.specs.{Prelude.{◌≡◌, [], IfOk, option_map}, List.insert};
ghost use Rattle.do_machine.specs.{Commit.showed, ends.Losing.lost};

use crate::commit::shows_nothing;
use crate::stations::with_queue_of;
use do_base::{Items, NodeId};
use do_machine::{Item, Shared, State, Stepped};
use do_rules::{is_open, node_at, queue};
use std::alloc::AllocError;

/// An end that names nothing stands behind so many items, where the reader's end is open.
pub(crate) fn lose(
    state: &State,
    from: NodeId,
    to: NodeId,
    after: u64,
) -> Result<Option<Stepped>, AllocError>
    ensures { IfOk result (λ s. s ≡ option_map (showed []) (lost state.now from to after)) }
{
    let Some(node) = node_at(state, to) else {
        return Ok(None);
    };
    if !is_open(node, from) {
        return Ok(None);
    }
    let Some(waiting) = queue(state, from, to) else {
        return Ok(None);
    };
    if (waiting.len() as u64) < after {
        return Ok(None);
    }
    let mut items = waiting.clone()?;
    let alloc = items.allocator();
    let end = Item::End {
        serials: Items::new(alloc),
    };
    items.insert(after as usize, Shared::new(alloc, end)?)?;
    Ok(Some(shows_nothing(with_queue_of(from, to, items, state)?)))
}
