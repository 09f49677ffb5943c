//! The inputs of a node that is served.
ghost use Rattle.std.specs.Prelude.{◌++◌, ◌≡◌, [], OnOk};
ghost use Rattle.do_serve.specs.{Core.{enter, leave_among}, Entering.{core_of, IsEntered}};
ghost use Rattle.do_serve.specs.Record.{act_line};

use crate::far::Far;
use crate::log::{Log, push_act_by, push_by, push_waiting};
use crate::site::Serving;
use do_base::{NodeId, Text};
use do_network::Input;
use std::alloc::AllocError;

/// Does an input, and writes its block.
pub(crate) fn enter<S: Serving>(site: &mut S, log: &mut Log, input: Input) -> Result<(), AllocError>
    requires { S.shown site.old ≡ [] }
    ensures { OnOk result (IsEntered
        (enter S.rules log.old.node input (core_of (S.part site.old) (S.frames site.old) log.old))
        (S.part site.new) (S.frames site.new) (S.shown site.new) log.old log.new) }
{
    let done = site.handle(&input)?;
    push_by(&mut log.text, log.node, input, done)?;
    push_waiting(site, log)
}

/// Does an act of the top invocation, and writes its block. Most lines of a record are that of an
/// act, so it is made once and given.
pub fn act<S: Serving>(site: &mut S, log: &mut Log, line: &Text) -> Result<(), AllocError>
    requires drained { S.shown site.old ≡ [] }
    requires line { line.now ≡ act_line log.old.node }
    ensures { OnOk result (IsEntered (enter S.rules log.old.node Input.Run
        (core_of (S.part site.old) (S.frames site.old) log.old))
        (S.part site.new) (S.frames site.new) (S.shown site.new) log.old log.new) }
{
    let done = site.handle(&Input::Run)?;
    push_act_by(&mut log.text, log.node, line, done)?;
    push_waiting(site, log)
}

/// Closes the end towards a peer, and writes its block.
///
/// The end closes in any case: an error means that no memory was left for the block.
fn close<S: Serving>(site: &mut S, log: &mut Log, peer: NodeId) -> Result<(), AllocError>
    requires { S.shown site.old ≡ [] }
    ensures ok { OnOk result (IsEntered (enter S.rules log.old.node (Input.Close peer)
        (core_of (S.part site.old) (S.frames site.old) log.old))
        (S.part site.new) (S.frames site.new) (S.shown site.new) log.old log.new) }
    ensures part { S.part site.new ≡ (S.rules.step (S.part site.old) (Input.Close peer)).part }
    ensures frames { S.frames site.new
        ≡ S.frames site.old ++ (S.rules.step (S.part site.old) (Input.Close peer)).frames }
{
    let input = Input::Close(peer);
    let Ok(done) = site.handle(&input) else {
        unreachable!();
    };
    push_by(&mut log.text, log.node, input, done)?;
    push_waiting(site, log)
}

/// Closes each open end of these over which a frame was sent or taken.
///
/// No close finds too little room, though the frames of those before it wait.
pub(crate) fn leave_among<S: Serving>(
    site: &mut S,
    log: &mut Log,
    fars: &[Far],
) -> Result<(), AllocError>
    requires { S.shown site.old ≡ [] }
    ensures { OnOk result (IsEntered (leave_among S.rules log.old.node fars.now
        (core_of (S.part site.old) (S.frames site.old) log.old))
        (S.part site.new) (S.frames site.new) (S.shown site.new) log.old log.new) }
{
    let Some((first, others)) = fars.split_first() else {
        return Ok(());
    };
    let port = first.port();
    if first.is_used() && site.is_open(port) {
        close(site, log, port)?;
    }
    leave_among(site, log, others)
}
