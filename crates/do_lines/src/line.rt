ghost use Rattle.std.specs.Prelude.{◌≡◌, ◌++◌, OnOk, IfOk};
ghost use Rattle.do_lines.specs.Block.{head_line, line_lines, stepped_node, shown_lines};

use crate::shown::push_all_shown;
use do_base::{NodeId, Text};
use do_sched::{Line, push_line};
use do_trace::Outcome;
use std::alloc::{AllocError, Global};

/// The node that a line steps. A loss and a check step none.
pub fn stepped_node(line: &Line) -> Option<NodeId>
    ensures { result ≡ stepped_node line.now }
{
    match line {
        Line::Start { node, .. } | Line::Run { node, .. } | Line::Take { node, .. } => Some(*node),
        Line::Close { node, .. } | Line::Timeout { node } => Some(*node),
        Line::Lose { .. } | Line::Check => None,
    }
}

/// Adds `> ` and a line as it is written in a schedule, which begin the line's block.
///
/// If memory runs out, a part of it may have been added.
pub fn push_head(out: &mut Text, line: &Line) -> Result<(), AllocError>
    ensures { OnOk result (out.new ≡ out.old ++ head_line line.now) }
{
    out.push_bytes(b"> ")?;
    push_line(out, line)?;
    out.push(b'\n')
}

/// Adds the lines that a node showed, or `skip` alone where no step was enabled. Where no node was
/// stepped, none are shown.
///
/// If memory runs out, a part of them may have been added.
pub fn push_outcome(
    out: &mut Text,
    node: Option<NodeId>,
    outcome: &Outcome,
) -> Result<(), AllocError>
    ensures { OnOk result (out.new ≡ out.old ++ shown_lines node outcome.now) }
{
    if !outcome.enabled {
        return out.push_bytes(b"skip\n");
    }
    match node {
        Some(node) => push_all_shown(out, node.port(), &outcome.shown),
        None => Ok(()),
    }
}

/// The block of a line: `> ` and the line as it is written in a schedule, and what it showed.
///
/// For a run of several steps the outcome has what they showed one after another, and is enabled
/// where one of them was. The form is this project's own.
pub fn line_text(alloc: Global, line: &Line, outcome: &Outcome) -> Result<Text, AllocError>
    ensures { IfOk result (λ text. text ≡ line_lines line.now outcome.now) }
{
    let mut text = Text::new(alloc);
    push_head(&mut text, line)?;
    push_outcome(&mut text, stepped_node(line), outcome)?;
    Ok(text)
}
