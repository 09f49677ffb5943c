//! What one line adds to a summary.
ghost use Rattle.std.specs.Prelude.{◌≡◌, ◌+◌, [], IfOk, OnOk, if◌then◌else◌, length, sum_by};
ghost use Rattle.std.specs.List.{count_by};
ghost use Rattle.do_make.specs.Summary.{entries_listed, is_free, is_say, objects_listed};

use crate::counts::Summary;
use do_base::{Shown, ShownList};
use do_net::{Hosted, Net};
use do_trace::{Outcome, Snapshot};
use std::alloc::AllocError;

/// So many more.
pub fn plus(n: u64, more: usize) -> Result<u64, AllocError>
    ensures { IfOk result (λ sum. sum ≡ n + more) }
{
    match n.checked_add(more as u64) {
        Some(sum) => Ok(sum),
        None => Err(AllocError),
    }
}

/// Adds the values that were said, and the objects that were freed.
fn add_shown(sum: &mut Summary, shown: &ShownList) -> Result<(), AllocError>
    ensures { OnOk result (sum.new ≡ record sum.old {
      says = sum.old.says + count_by is_say shown.now;
      frees = sum.old.frees + count_by is_free shown.now;
    }) }
{
    for line in shown.as_slice() {
        match line {
            Shown::Say(_) => sum.says = plus(sum.says, 1)?,
            Shown::Free(_) => sum.frees = plus(sum.frees, 1)?,
            _ => {}
        }
    }
    Ok(())
}

/// Adds what a line came to: itself, whether it was enabled, and what it showed.
pub(crate) fn add_outcome(sum: &mut Summary, outcome: &Outcome) -> Result<(), AllocError>
    ensures { OnOk result (sum.new ≡ record sum.old {
      lines = sum.old.lines + 1;
      skips = sum.old.skips + (if outcome.now.enabled then 0 else 1);
      says = sum.old.says + count_by is_say outcome.now.shown;
      frees = sum.old.frees + count_by is_free outcome.now.shown;
    }) }
{
    sum.lines = plus(sum.lines, 1)?;
    sum.skips = plus(sum.skips, if outcome.enabled { 0 } else { 1 })?;
    add_shown(sum, &outcome.shown)
}

/// Counts the objects and the entries that a check lists.
fn count_listed(sum: &mut Summary, listed: &Snapshot) -> Result<(), AllocError>
    ensures { OnOk result (sum.new ≡ record sum.old {
      objects = sum_by (λ n. length n.objects) listed.now.nodes;
      entries = sum_by (λ n. length n.entries) listed.now.nodes;
    }) }
{
    sum.objects = 0;
    sum.entries = 0;
    for node in listed.nodes.as_slice() {
        sum.objects = plus(sum.objects, node.objects.len())?;
        sum.entries = plus(sum.entries, node.entries.len())?;
    }
    Ok(())
}

/// Puts what a line listed in the place of what was listed before.
pub(crate) fn add_listed(sum: &mut Summary, listed: &Option<Snapshot>) -> Result<(), AllocError>
    ensures { OnOk result (sum.new ≡ record sum.old {
      objects = objects_listed sum.old.objects listed.now;
      entries = entries_listed sum.old.entries listed.now;
    }) }
{
    match listed {
        Some(snapshot) => count_listed(sum, snapshot),
        None => Ok(()),
    }
}

/// Takes all that was sent out of a network, and adds it.
pub(crate) fn add_wires<S: Hosted>(sum: &mut Summary, net: &mut Net<S>) -> Result<(), AllocError>
    ensures sum { OnOk result (sum.new ≡ record sum.old {
      frames = sum.old.frames + length net.old.wires.items;
      bytes = sum.old.bytes + sum_by (λ w. length w.bytes) net.old.wires.items;
    }) }
    ensures taken { OnOk result (net.new.wires.items ≡ []) }
    ensures table { net.new.table ≡ net.old.table }
    ensures acts { net.new.acts ≡ net.old.acts }
    ensures hosts { net.new.hosts ≡ net.old.hosts }
    ensures spent { net.new.spent ≡ net.old.spent }
{
    while let Some(wire) = net.next_wire() {
        sum.frames = plus(sum.frames, 1)?;
        sum.bytes = plus(sum.bytes, wire.bytes.len())?;
    }
    Ok(())
}
