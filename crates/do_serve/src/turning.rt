//! One turn of a node that is served.
ghost use Rattle.std.specs.Prelude.{◌≡◌, ◌∷◌, [], List, IfOk, OnOk};
ghost use Rattle.do_plan.specs.declared.starts.StartLine.{StartLine as Line};
ghost use Rattle.do_serve.specs.{Record.act_line, Serving.{turn, idle_turn, line_turn}};
ghost use Rattle.do_serve.specs.Turning.{server_of, server_with, TurnsTo, UsesLine, IsKept};

use crate::entering::{act, enter, leave_among};
use crate::far::Far;
use crate::fars::{closed_among, end_among, take_among};
use crate::log::Log;
use crate::site::Serving;
use do_base::Text;
use do_network::Input;
use do_plan::{StartLine, Starts};
use std::alloc::AllocError;

/// What a turn came to.
#[derive(Clone, Copy, Debug, PartialEq, Eq)]
pub enum Turned {
    /// Something was done, or a line of starts was used.
    Went,
    /// Only a poll is possible.
    Polls,
    /// The line `end` was used.
    Ends,
}

/// Uses a line of starts where its condition holds, and says whether it does.
fn use_line<S: Serving>(
    site: &mut S,
    log: &mut Log,
    fars: &[Far],
    line: &StartLine,
) -> Result<bool, AllocError>
    requires { S.shown site.old ≡ [] }
    ensures used { IfOk result (λ used. (rest : List Line) → UsesLine (line_turn S.rules
        log.old.node (line.now ∷ rest) (server_with (S.part site.old) (S.frames site.old) log.old
        fars.now (line.now ∷ rest))) (S.part site.old) (S.frames site.old) (S.part site.new)
        (S.frames site.new) log.old log.new fars.now rest used) }
    ensures kept { OnOk result (IsKept (S.shown site.new) log.old log.new) }
{
    match line {
        StartLine::Start { selector, values } => {
            let selector = selector.clone()?;
            let values = values.clone()?;
            enter(site, log, Input::Start { selector, values })?;
            Ok(true)
        }
        StartLine::Serve(count) => Ok(*count <= log.taken),
        StartLine::Until(count) => Ok(*count <= closed_among(site, fars) as u64),
        StartLine::Leave => {
            leave_among(site, log, fars)?;
            Ok(true)
        }
    }
}

/// Uses the next line of starts where the node has no invocation.
fn idle_turn<S: Serving>(
    site: &mut S,
    log: &mut Log,
    fars: &[Far],
    starts: &Starts,
    at: &mut usize,
) -> Result<Turned, AllocError>
    requires { S.shown site.old ≡ [] }
    ensures turned { IfOk result (λ turned. TurnsTo (idle_turn S.rules log.old.node
        (server_of (S.part site.old) (S.frames site.old) log.old fars.now starts.now at.old))
        (server_of (S.part site.old) (S.frames site.old) log.old fars.now starts.now at.old)
        (server_of (S.part site.new) (S.frames site.new) log.new fars.now starts.now at.new)
        log.old.text log.new.text turned) }
    ensures kept { OnOk result (IsKept (S.shown site.new) log.old log.new) }
{
    if !site.is_idle() {
        return Ok(Turned::Polls);
    }
    let lines = starts.as_slice();
    if *at >= lines.len() {
        return Ok(Turned::Ends);
    }
    if use_line(site, log, fars, &lines[*at])? {
        *at += 1;
        return Ok(Turned::Went);
    }
    Ok(Turned::Polls)
}

/// Makes the first turn that is possible. The line of an act is given.
pub fn turn<S: Serving>(
    site: &mut S,
    log: &mut Log,
    fars: &mut [Far],
    starts: &Starts,
    at: &mut usize,
    line: &Text,
) -> Result<Turned, AllocError>
    requires drained { S.shown site.old ≡ [] }
    requires line { line.now ≡ act_line log.old.node }
    ensures turned { IfOk result (λ turned. TurnsTo (turn S.rules log.old.node
        (server_of (S.part site.old) (S.frames site.old) log.old fars.old starts.now at.old))
        (server_of (S.part site.old) (S.frames site.old) log.old fars.old starts.now at.old)
        (server_of (S.part site.new) (S.frames site.new) log.new fars.new starts.now at.new)
        log.old.text log.new.text turned) }
    ensures kept { OnOk result (IsKept (S.shown site.new) log.old log.new) }
{
    if site.can_act() {
        act(site, log, line)?;
        return Ok(Turned::Went);
    }
    if let Some(input) = take_among(site, fars)? {
        enter(site, log, input)?;
        return Ok(Turned::Went);
    }
    if let Some(input) = end_among(site, fars) {
        enter(site, log, input)?;
        return Ok(Turned::Went);
    }
    idle_turn(site, log, fars, starts, at)
}
