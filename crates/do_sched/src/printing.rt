ghost use Rattle.std.specs.{Prelude.{◌≡◌, ◌++◌, ◌∷◌, OnOk, IfOk, map, take}, List.flat_map};
ghost use Rattle.do_sched.specs.Spelling.{line_spelling, number_pair, spaced_value};

use crate::line::Line;
use crate::value::push_value;
use do_base::{NodeId, Text, Value};
use do_grammar::push_dec;
use std::alloc::{AllocError, Global};

/// A line of a schedule as it is written, without its line feed.
///
/// A line that may stand in no schedule is written in the same way, and read back as none. The
/// form is this project's own.
pub fn print_line(alloc: Global, line: &Line) -> Result<Text, AllocError>
    ensures { IfOk result (λ text. text ≡ line_spelling line.now) }
{
    let mut text = Text::new(alloc);
    push_line(&mut text, line)?;
    Ok(text)
}

/// Adds a line of a schedule as it is written, without its line feed.
///
/// Where memory ran out, a part of it may have been added. The form is this project's own.
pub fn push_line(out: &mut Text, line: &Line) -> Result<(), AllocError>
    ensures { OnOk result (out.new ≡ out.old ++ line_spelling line.now) }
{
    match line {
        Line::Start {
            node,
            selector,
            values,
        } => push_start(out, *node, selector, values.as_slice()),
        Line::Run { node, count } => {
            out.push_bytes(b"run ")?;
            push_pair(out, *node, *count)
        }
        Line::Take { node, from } => {
            out.push_bytes(b"take ")?;
            push_pair(out, *node, u64::from(from.port()))
        }
        Line::Close { node, peer } => {
            out.push_bytes(b"close ")?;
            push_pair(out, *node, u64::from(peer.port()))
        }
        Line::Lose { from, to, after } => {
            out.push_bytes(b"lose ")?;
            push_dec(out, u64::from(from.port()))?;
            out.push(b' ')?;
            push_pair(out, *to, *after)
        }
        Line::Timeout { node } => {
            out.push_bytes(b"timeout ")?;
            push_dec(out, u64::from(node.port()))
        }
        Line::Check => out.push_bytes(b"check"),
    }
}

/// Adds the line of a start.
fn push_start(
    out: &mut Text,
    node: NodeId,
    selector: &Text,
    values: &[Value],
) -> Result<(), AllocError>
    ensures { OnOk result
        (out.new ≡ out.old ++ line_spelling (Line.Start node selector.now values.now)) }
{
    out.push_bytes(b"start ")?;
    push_dec(out, u64::from(node.port()))?;
    out.push(b' ')?;
    out.push_bytes(selector.as_slice())?;
    push_values(out, values)
}

/// Adds a node's number and one more, with a space between.
fn push_pair(out: &mut Text, node: NodeId, number: u64) -> Result<(), AllocError>
    ensures { OnOk result (out.new ≡ out.old ++ number_pair node number) }
{
    push_dec(out, u64::from(node.port()))?;
    out.push(b' ')?;
    push_dec(out, number)
}

/// Adds values with a space before each.
fn push_values(out: &mut Text, values: &[Value]) -> Result<(), AllocError>
    ensures { OnOk result (out.new ≡ out.old ++ flat_map spaced_value values.now) }
{
    for value in values {
        out.push(b' ')?;
        push_value(out, value)?;
    }
    Ok(())
}
