//! What the lines of a record are.
ghost use Rattle.std.specs.Prelude.{◌≡◌, IfOk};
ghost use Rattle.do_record.specs.Line.{as_input, ended_at, first_port, input_at, own_input};
ghost use Rattle.do_record.specs.Line.{shown_or_bad, text_of};

use crate::parts::RecordLine;
use crate::shown::is_shown;
use do_base::NodeId;
use do_grammar::is_text;
use do_sched::{Line, Version, line_from, node_of, nodes_of, word_in};
use std::alloc::{AllocError, Global};

/// What a line of a record is, behind the first.
#[derive(Debug, Drop)]
pub(crate) enum RecordText {
    /// No line of a record of that node.
    Bad,
    /// The last line of a whole record.
    End,
    /// An input, which begins a block.
    Input(RecordLine),
    /// What an input showed.
    Shown,
}

/// The port that the first line of a record has.
pub(crate) fn first_port(text: &[u8], fed: bool) -> Option<NodeId>
    ensures { result ≡ first_port (record { text = text.now; fed = fed }) }
{
    if !fed {
        return None;
    }
    let (first, rest) = word_in(text)?;
    if !is_text(first, b"record") {
        return None;
    }
    let (version, digits) = word_in(rest)?;
    if !is_text(version, b"1") {
        return None;
    }
    node_of(digits)
}

/// An input, if its node is the record's.
fn own_input(port: NodeId, node: NodeId, input: RecordLine) -> Option<RecordLine>
    ensures { result ≡ own_input port node input }
{
    if node == port { Some(input) } else { None }
}

/// A line of a schedule as an input of a node.
fn as_input(port: NodeId, line: Line) -> Option<RecordLine>
    ensures { result ≡ as_input port line }
{
    match line {
        Line::Start {
            node,
            selector,
            values,
        } => own_input(port, node, RecordLine::Start { selector, values }),
        Line::Run { node, count } => {
            if count == 1 {
                own_input(port, node, RecordLine::Run)
            } else {
                None
            }
        }
        Line::Take { node, from } => own_input(port, node, RecordLine::Take(from)),
        Line::Close { node, peer } => own_input(port, node, RecordLine::Close(peer)),
        _ => None,
    }
}

/// An end without notice.
fn ended_of(port: NodeId, bytes: &[u8]) -> Option<RecordLine>
    ensures { result ≡ ended_at port bytes.now }
{
    let (node, peer) = nodes_of(bytes)?;
    own_input(port, node, RecordLine::Ended(peer))
}

/// The input that a text spells, if it spells one.
fn input_of(alloc: Global, port: NodeId, text: &[u8]) -> Result<Option<RecordLine>, AllocError>
    ensures { IfOk result (λ input. input ≡ input_at port text.now) }
{
    let Some((first, rest)) = word_in(text) else {
        return Ok(None);
    };
    if is_text(first, b"ended") {
        return Ok(ended_of(port, rest));
    }
    match line_from(alloc, text, Version::Second)? {
        Some(line) => Ok(as_input(port, line)),
        None => Ok(None),
    }
}

/// What a line without an angle bracket is.
fn shown_or_bad(port: NodeId, text: &[u8]) -> RecordText
    ensures { result ≡ shown_or_bad port text.now }
{
    if is_shown(port, text) {
        RecordText::Shown
    } else {
        RecordText::Bad
    }
}

/// What a line behind the first is.
pub(crate) fn text_of(
    alloc: Global,
    port: NodeId,
    text: &[u8],
    fed: bool,
) -> Result<RecordText, AllocError>
    ensures { IfOk result (λ kind. kind ≡ text_of port (record { text = text.now; fed = fed })) }
{
    if !fed {
        return Ok(RecordText::Bad);
    }
    let Some((first, rest)) = word_in(text) else {
        return Ok(RecordText::Bad);
    };
    if !is_text(first, b">") {
        return Ok(shown_or_bad(port, text));
    }
    if is_text(rest, b"end") {
        return Ok(RecordText::End);
    }
    match input_of(alloc, port, rest)? {
        Some(input) => Ok(RecordText::Input(input)),
        None => Ok(RecordText::Bad),
    }
}
