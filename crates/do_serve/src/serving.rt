//! Serving a node over a link.
ghost use Rattle.std.specs.Prelude.{◌≡◌, ◌≤◌, ◌++◌, [], length, map, IfOk, OnOk, OnErr, IsErrOf};
ghost use Rattle.std.specs.Prelude.{true};
ghost use Rattle.do_base.specs.outside.{Bytes.with_more, Causes.Rose};
ghost use Rattle.do_serve.specs.{Record.{first_line, act_line, last_line}, Peers.new_peer};
ghost use Rattle.do_serve.specs.{Serving.{serve_from, opening}, Turning.server_of};
ghost use Rattle.do_serve.specs.Answers.{TellsServed, TellsTurns, Breaks};

use crate::far::Far;
use crate::log::{Log, act_line};
use crate::rounds::{Room, round};
use crate::site::Serving;
use do_base::{NodeId, Peers, PutFail, Sink, Text};
use do_grammar::push_dec;
use do_link::{Link, LinkFail};
use do_output::{flush, flush_if_long};
use do_plan::Starts;
use std::alloc::{AllocError, Global};

/// How serving ended.
#[derive(Clone, Copy, Debug, PartialEq, Eq)]
pub enum ServeEnd {
    /// The line `end` of the starts was used, and the whole record was written.
    Done,
    /// All turns were taken, this number of them, and none used the line `end`. The record so far
    /// was written.
    TurnsSpent(u64),
    /// The link did not listen, and nothing else was done.
    LinkFault,
    /// The output failed. A prefix of the record was written.
    WriteFault,
    /// Memory ran out. A prefix of the record was written.
    Memory,
}

/// How many bytes a poll gives at most.
const HEARD: usize = 65_536;

/// The first line of a node's record.
fn first_text(alloc: Global, node: NodeId) -> Result<Text, AllocError>
    ensures { IfOk result (λ text. text ≡ first_line node) }
{
    let mut text = Text::from_slice(alloc, b"record 1 ")?;
    push_dec(&mut text, u64::from(node.port()))?;
    text.push(b'\n')?;
    Ok(text)
}

/// The peers before the first turn.
fn new_fars(alloc: Global, peers: &Peers) -> Result<Vec<Far>, AllocError>
    ensures { IfOk result (λ fars. fars.items ≡ map new_peer peers.now) }
{
    let mut fars = Vec::new(alloc);
    for peer in peers.as_slice() {
        fars.push(Far::new(alloc, *peer))?;
    }
    Ok(fars)
}

/// What a node is served with: its log, its peers, and room.
fn desk_of(alloc: Global, node: NodeId, peers: &Peers) -> Result<(Log, Vec<Far>, Room), AllocError>
    ensures { IfOk result (λ desk. (desk.0 ≡ record {
      node = node;
      taken = 0;
      text = first_line node;
    }) × (desk.1.items ≡ map new_peer peers.now) × (4096 ≤ length desk.2.heard.items)
        × (desk.2.act ≡ act_line node)) }
{
    let text = first_text(alloc, node)?;
    let fars = new_fars(alloc, peers)?;
    let heard = vec![in alloc; 0u8; HEARD]?;
    let frame = Text::new(alloc);
    let act = act_line(alloc, node)?;
    Ok((
        Log {
            node,
            taken: 0,
            text,
        },
        fars,
        Room { frame, heard, act },
    ))
}

/// Writes what waits and the record's last line.
fn finish<K: Sink>(log: &mut Log, out: &mut K) -> Result<bool, PutFail>
    ensures ended { IfOk result (λ ended. ended ≡ true) }
    ensures ok { OnOk result
        (K.written out.new ≡ with_more (K.written out.old) (log.old.text ++ last_line)) }
    ensures prefix { OnErr result
        (Breaks (K.written out.old) (K.written out.new) (log.old.text ++ last_line)) }
    ensures later { K.faults out.old ≤ K.faults out.new }
    ensures failed { IsErrOf result PutFail.Failed → Rose (K.faults out.old) (K.faults out.new) }
{
    if log.text.push_bytes(b"> end\n").is_err() {
        return Err(PutFail::Memory);
    }
    flush(&mut log.text, out)?;
    Ok(true)
}

/// Takes turns, and writes the record. It says whether the line `end` was used.
fn serve_turns<S: Serving, L: Link, K: Sink>(
    site: &mut S,
    link: &mut L,
    log: &mut Log,
    fars: &mut [Far],
    starts: &Starts,
    turns: u64,
    room: &mut Room,
    out: &mut K,
) -> Result<bool, PutFail>
    requires drained { S.shown site.old ≡ [] }
    requires room { 4096 ≤ length room.old.heard.items }
    requires act { room.old.act ≡ act_line log.old.node }
    requires first { log.old.text ≡ first_line log.old.node }
    ensures tells { TellsTurns log.old.node (serve_from S.rules log.old.node turns
        (server_of (S.part site.old) (S.frames site.old) log.old fars.old starts.now 0))
        (L.told link.old) (L.told link.new) (K.written out.old) (K.written out.new)
        (K.faults out.old) (K.faults out.new) result }
    ensures later { K.faults out.old ≤ K.faults out.new }
{
    let mut at = 0;
    for _turn in 0..turns {
        let ended = match round(site, link, log, fars, starts, &mut at, room) {
            Ok(ended) => ended,
            Err(_) => return Err(PutFail::Memory),
        };
        if ended {
            return finish(log, out);
        }
        if let Err(fail) = flush_if_long(&mut log.text, out) {
            return Err(fail);
        }
    }
    match flush(&mut log.text, out) {
        Ok(()) => Ok(false),
        Err(fail) => Err(fail),
    }
}

/// Serves a node over a link for at most `turns` turns, and writes its record.
///
/// It listens for the peers, which are listed by rising port, writes the record's first line, and
/// takes turns. Before each turn it sends all frames that wait. A turn is the first of these that
/// is possible: an act of the top invocation; the first whole frame of the first peer from which
/// the node takes, or a close where a fault stands in its place; the end of the first peer whose
/// end was told; the next line of starts; a poll of the link. A failed send counts as an end that
/// was told. What comes over an end that is closed is dropped. Each input that was done is written
/// to the record, and `> end` where the line `end` of the starts was used.
pub fn serve<S: Serving, L: Link, K: Sink>(
    alloc: Global,
    site: &mut S,
    node: NodeId,
    peers: &Peers,
    link: &mut L,
    starts: &Starts,
    turns: u64,
    out: &mut K,
) -> ServeEnd
    requires { S.shown site.old ≡ [] }
    ensures tells { TellsServed node peers.now turns (serve_from S.rules node turns
        (opening (S.part site.old) (S.frames site.old) peers.now starts.now))
        (L.told link.old) (L.told link.new) (K.written out.old) (K.written out.new)
        (K.faults out.old) (K.faults out.new) result }
    ensures link { result ≡ ServeEnd.LinkFault → Rose (L.faults link.old) (L.faults link.new) }
    ensures later { K.faults out.old ≤ K.faults out.new }
{
    let Ok((mut log, mut fars, mut room)) = desk_of(alloc, node, peers) else {
        return ServeEnd::Memory;
    };
    match link.listen(node, peers.as_slice()) {
        Ok(()) => {}
        Err(LinkFail::Failed) => return ServeEnd::LinkFault,
        Err(LinkFail::Memory) => return ServeEnd::Memory,
    }
    let fars = fars.as_mut_slice();
    match serve_turns(site, link, &mut log, fars, starts, turns, &mut room, out) {
        Ok(true) => ServeEnd::Done,
        Ok(false) => ServeEnd::TurnsSpent(turns),
        Err(PutFail::Failed) => ServeEnd::WriteFault,
        Err(PutFail::Memory) => ServeEnd::Memory,
    }
}
