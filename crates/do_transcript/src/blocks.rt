//! The block of a line.
ghost use Rattle.std.specs.Prelude.{◌≡◌, ◌++◌, OnOk, IfOk};
ghost use Rattle.do_machine.specs.check.Blocks.{block, line_step, listed_at};
ghost use Rattle.do_lines.specs.Transcript.{block_lines, listed_lines};

use crate::stepping::step_line;
use do_base::Text;
use do_behave::Behaviour;
use do_class::ClassTable;
use do_lines::{push_check, push_head, push_outcome, stepped_node};
use do_local::Local;
use do_sched::Line;
use do_trace::Snapshot;
use std::alloc::{AllocError, Global};

/// What a line lists: all that a check shows, or nothing.
fn listed_at<B: Behaviour + Drop>(
    local: &Local<B>,
    line: &Line,
) -> Result<Option<Snapshot>, AllocError>
    ensures { IfOk result (λ listed. listed ≡ listed_at (line_step local.now.table
        (B.act local.now.behaviour) local.now.state line.now).state line.now) }
{
    match line {
        // A check changes nothing, so it lists the state that it finds.
        Line::Check => Ok(Some(local.snapshot()?)),
        _ => Ok(None),
    }
}

/// Adds what a line listed.
fn push_listed(
    text: &mut Text,
    table: &ClassTable,
    listed: &Option<Snapshot>,
) -> Result<(), AllocError>
    ensures { OnOk result (text.new ≡ text.old ++ listed_lines table.now listed.now) }
{
    match listed {
        Some(snapshot) => push_check(text, table, snapshot),
        None => Ok(()),
    }
}

/// Does what a line says, and adds its block.
///
/// If memory runs out, a part of the block may have been added.
pub(crate) fn push_block<B: Behaviour + Drop>(
    alloc: Global,
    local: &mut Local<B>,
    line: Line,
    text: &mut Text,
) -> Result<(), AllocError>
    ensures text { OnOk result (text.new ≡ text.old ++ block_lines local.old.table (block line
        (line_step local.old.table (B.act local.old.behaviour) local.old.state line))) }
    ensures state { OnOk result (local.new ≡ record local.old {
      state = (line_step local.old.table
          (B.act local.old.behaviour) local.old.state line).state;
    }) }
{
    push_head(text, &line)?;
    let node = stepped_node(&line);
    let listed = listed_at(local, &line)?;
    let outcome = step_line(alloc, local, line)?;
    push_outcome(text, node, &outcome)?;
    push_listed(text, local.table(), &listed)
}
