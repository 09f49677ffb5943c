//! Children in memory.

use crate::words::calls_of;
use call_rows::number_at;
use do_base::{CallList, Values};
use do_lab::{MemSpawner, StatusList};
use std::alloc::{AllocError, Global};
use std::test::Fail;

/// Adds statuses.
fn push_statuses(statuses: &mut StatusList, values: &Values) -> Result<(), Fail> {
    for at in 0..values.len() {
        statuses.push(i32::try_from(number_at(values, at)?)?)?;
    }
    Ok(())
}

/// The statuses that children end with.
fn statuses_of(values: &Values) -> Result<StatusList, Fail> {
    let mut statuses = StatusList::new(values.allocator());
    push_statuses(&mut statuses, values)?;
    Ok(statuses)
}

/// A spawner of children with these statuses, whose starts and waits of these numbers fail.
pub(crate) fn spawner_of(
    statuses: &Values,
    starts: &Values,
    waits: &Values,
) -> Result<MemSpawner, Fail> {
    let statuses = statuses_of(statuses)?;
    let starts = calls_of(starts)?;
    let waits = calls_of(waits)?;
    Ok(MemSpawner::new(statuses.allocator(), statuses, starts, waits)?)
}

/// A spawner whose children all end with 0.
pub(crate) fn good_children(alloc: Global) -> Result<MemSpawner, AllocError> {
    let (starts, waits) = (CallList::new(alloc), CallList::new(alloc));
    MemSpawner::new(alloc, StatusList::new(alloc), starts, waits)
}
