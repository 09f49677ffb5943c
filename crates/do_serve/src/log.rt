//! What the inputs of a node write.
//!
//! The line of an act is made once and copied, since most lines of a record are that line.
//!
//! A node writes its record in pieces of 64 KiB and what is left when it stops, so a put is no
//! part of what a call costs.
ghost use Rattle.std.specs.Prelude.{◌≡◌, ◌++◌, ◌∷◌, [], List, OnOk, IfOk, map};
ghost use Rattle.do_sched.specs.Spelling.{number_pair};
ghost use Rattle.do_lines.specs.{Lines.joined, Shown.shown_text};
ghost use Rattle.do_serve.specs.Record.{input_line, act_line, head_by};
ghost use Rattle.do_serve.specs.Core.{count_took, count_taken, taken_after};

use crate::site::Serving;
use do_base::{NodeId, Shown, Text, Took};
use do_grammar::push_dec;
use do_lines::{push_head, push_shown};
use do_network::{Done, Input};
use do_sched::Line;
use std::alloc::{AllocError, Global};

/// What a node that is served writes.
#[derive(Debug, Drop)]
pub struct Log {
    /// The node's port.
    pub node: NodeId,
    /// How many calls and oneway messages it took.
    pub taken: u64,
    /// What waits to be written.
    pub text: Text,
}

/// Adds the line of an end that was taken.
fn push_ended(out: &mut Text, node: NodeId, peer: NodeId) -> Result<(), AllocError>
    ensures { OnOk result (out.new ≡ out.old ++ input_line node (Input.Ended peer)) }
{
    out.push_bytes(b"> ended ")?;
    push_dec(out, u64::from(node.port()))?;
    out.push(b' ')?;
    push_dec(out, u64::from(peer.port()))?;
    out.push(b'\n')
}

/// Adds the line of an input that was done.
fn push_input(out: &mut Text, node: NodeId, input: Input) -> Result<(), AllocError>
    ensures { OnOk result (out.new ≡ out.old ++ input_line node input) }
{
    match input {
        Input::Run => push_head(out, &Line::Run { node, count: 1 }),
        Input::Start { selector, values } => push_head(
            out,
            &Line::Start {
                node,
                selector,
                values,
            },
        ),
        Input::Frame(from, _) => push_head(out, &Line::Take { node, from }),
        Input::Close(peer) => push_head(out, &Line::Close { node, peer }),
        Input::Ended(peer) => push_ended(out, node, peer),
        Input::Timeout => push_head(out, &Line::Timeout { node }),
    }
}

/// Adds the line of an input, by what came of it.
pub(crate) fn push_by(
    out: &mut Text,
    node: NodeId,
    input: Input,
    done: Done,
) -> Result<(), AllocError>
    ensures { OnOk result (out.new ≡ out.old ++ head_by node input done) }
{
    match done {
        Done::Moved => push_input(out, node, input),
        Done::Skipped => Ok(()),
        Done::Closed(peer, _) => push_head(out, &Line::Close { node, peer }),
    }
}

/// The line of an act.
pub(crate) fn act_line(alloc: Global, node: NodeId) -> Result<Text, AllocError>
    ensures { IfOk result (λ line. line ≡ act_line node) }
{
    let mut line = Text::new(alloc);
    push_input(&mut line, node, Input::Run)?;
    Ok(line)
}

/// Adds the line of an act, by what came of it. The line of one that was done is given.
pub(crate) fn push_act_by(
    out: &mut Text,
    node: NodeId,
    line: &Text,
    done: Done,
) -> Result<(), AllocError>
    requires { line.now ≡ act_line node }
    ensures { OnOk result (out.new ≡ out.old ++ head_by node Input.Run done) }
{
    match done {
        Done::Moved => out.push_bytes(line.as_slice()),
        done => push_by(out, node, Input::Run, done),
    }
}

/// One more where a call or a oneway message was taken.
fn count_took(count: u64, took: &Took) -> u64
    ensures { result ≡ count_took count took.now }
{
    match took {
        Took::Call(_) | Took::Oneway(_) => count.saturating_add(1),
        _ => count,
    }
}

/// The same where this was shown.
fn count_taken(count: u64, shown: &Shown) -> u64
    ensures { result ≡ count_taken count shown.now }
{
    match shown {
        Shown::Took(took) => count_took(count, took),
        _ => count,
    }
}

/// Fetches all that was shown, writes it, and counts the calls and oneway messages among it.
pub fn push_waiting<S: Serving>(site: &mut S, log: &mut Log) -> Result<(), AllocError>
    ensures ok { OnOk result (log.new ≡ record {
      node = log.old.node;
      taken = taken_after log.old.taken (S.shown site.old);
      text = log.old.text ++ joined (map (shown_text log.old.node) (S.shown site.old));
    }) }
    ensures drained { OnOk result (S.shown site.new ≡ []) }
    ensures part { S.part site.new ≡ S.part site.old }
    ensures frames { S.frames site.new ≡ S.frames site.old }
{
    while let Some(shown) = site.next_shown() {
        log.taken = count_taken(log.taken, &shown);
        push_shown(&mut log.text, log.node.port(), &shown)?;
        log.text.push(b'\n')?;
    }
    Ok(())
}
