//! Calls of a link in memory.

ghost use Rattle.std.specs.{List.All, Prelude.{IfOk, ◌≤◌, length}};
ghost use Rattle.do_link.specs.InMemory.{IsPiece};

use crate::words::{calls_of, node_of, peers_of, port_value};
use call_rows::{
    Part, call_of, list_at, no_call, number_at, text_at, text_value, triple_value, word_alone,
    word_with, word_with_two,
};
use do_base::{CallList, NodeId, Text, Value, Values};
use do_grammar::is_text;
use do_link::{Link, LinkEvent, LinkFail, MemLink, ScriptEvent, ScriptList, Sent};
use do_native_acts::as_number;
use std::alloc::{AllocError, Global};
use std::test::Fail;

/// What a row calls.
#[derive(Clone, Copy)]
enum Call {
    Link,
    Listen,
    Next,
    Send,
    Sent,
}

/// The words of the calls.
const CALLS: [(&[u8], Call); 5] = [
    (b"link", Call::Link),
    (b"listen", Call::Listen),
    (b"next", Call::Next),
    (b"send", Call::Send),
    (b"sent", Call::Sent),
];

/// A link in memory.
#[derive(Drop)]
pub(crate) struct LinkCalls {
    link: MemLink,
    alloc: Global,
}

/// Bytes of a peer, as one piece.
fn piece_of(peer: NodeId, bytes: &Text) -> Result<ScriptEvent, Fail>
    ensures { IfOk result (λ event. IsPiece event) }
{
    if bytes.is_empty() || bytes.len() > 4_096 {
        return Err(Fail::from("no piece"));
    }
    Ok(ScriptEvent::Bytes(peer, bytes.clone()?))
}

/// An event of a script: `bytes` with a peer and a text, `ended` with a peer, or `quiet`.
fn event_of(value: &Value) -> Result<ScriptEvent, Fail>
    ensures { IfOk result (λ event. IsPiece event) }
{
    let parts = value.items().ok_or("no event")?;
    let kind = text_at(parts, 0)?.as_slice();
    if is_text(kind, b"quiet") {
        return Ok(ScriptEvent::Quiet);
    }
    let peer = node_of(number_at(parts, 1)?)?;
    if is_text(kind, b"ended") {
        return Ok(ScriptEvent::Ended(peer));
    }
    piece_of(peer, text_at(parts, 2)?)
}

/// A script.
fn script_of(values: &Values) -> Result<ScriptList, Fail>
    ensures { IfOk result (λ script. All IsPiece script) }
{
    let mut script = ScriptList::new(values.allocator());
    for value in values.as_slice() {
        script.push(event_of(value)?)?;
    }
    Ok(script)
}

/// A link of a script, whose listen fails or not, and whose sends of these numbers fail.
fn link_of(alloc: Global, script: &Values, fails: bool, calls: &Values) -> Result<MemLink, Fail> {
    let script = script_of(script)?;
    match calls_of(calls) {
        Ok(calls) => Ok(MemLink::new(alloc, script, fails, calls)?),
        Err(fail) => Err(fail),
    }
}

/// Whether a call of the link did not fail.
fn is_done(done: Result<(), LinkFail>) -> Result<Value, Fail> {
    match done {
        Ok(()) => Ok(as_number(true)),
        Err(LinkFail::Failed) => Ok(as_number(false)),
        Err(LinkFail::Memory) => Err(Fail::from(AllocError)),
    }
}

/// A word, and the peer that it is about.
fn of_peer(alloc: Global, word: &[u8], peer: NodeId) -> Result<Value, Fail> {
    word_with(alloc, word, port_value(peer))
}

/// Bytes that a peer sent.
fn bytes_value(alloc: Global, peer: NodeId, bytes: &[u8]) -> Result<Value, Fail> {
    let bytes = text_value(alloc, bytes)?;
    word_with_two(alloc, b"bytes", port_value(peer), bytes)
}

/// What a poll found: its kind, the peer, and the bytes that came.
fn event_value(alloc: Global, event: LinkEvent, buf: &[u8]) -> Result<Value, Fail> {
    match event {
        LinkEvent::Bytes(peer, count) => {
            let bytes = buf.get(..count).ok_or("too many")?;
            bytes_value(alloc, peer, bytes)
        }
        LinkEvent::Ended(peer) => of_peer(alloc, b"ended", peer),
        LinkEvent::Quiet => word_alone(alloc, b"quiet"),
    }
}

/// A send: the peer, the bytes, and whether it failed.
fn sent_value(alloc: Global, sent: &Sent) -> Result<Value, Fail> {
    let bytes = text_value(alloc, sent.bytes.as_slice())?;
    let (peer, failed) = (port_value(sent.to), as_number(sent.failed));
    triple_value(alloc, peer, bytes, failed)
}

/// Adds sends: the peer, the bytes, and whether each failed.
fn push_sent(answer: &mut Values, link: &MemLink) -> Result<(), Fail> {
    for sent in link.sent().as_slice() {
        answer.push(sent_value(answer.allocator(), sent)?)?;
    }
    Ok(())
}

impl LinkCalls {
    /// A link that does not listen.
    pub(crate) fn new(alloc: Global) -> Result<LinkCalls, AllocError> {
        let (script, sends) = (ScriptList::new(alloc), CallList::new(alloc));
        let link = MemLink::new(alloc, script, true, sends)?;
        Ok(LinkCalls { link, alloc })
    }

    /// The link.
    pub(crate) fn link(&mut self) -> &mut MemLink {
        &mut self.link
    }

    /// Begins with a link of a script, whose listen fails or not, and whose sends of these numbers
    /// fail.
    fn begin(&mut self, args: &Values) -> Result<Value, Fail> {
        let (script, calls) = (list_at(args, 0)?, list_at(args, 2)?);
        let fails = number_at(args, 1)? != 0;
        self.link = link_of(self.alloc, script, fails, calls)?;
        Ok(Value::Nil)
    }

    /// Listens for peers.
    fn listen(&mut self, args: &Values) -> Result<Value, Fail> {
        let own = node_of(number_at(args, 0)?)?;
        let peers = peers_of(list_at(args, 1)?)?;
        is_done(self.link.listen(own, peers.as_slice()))
    }

    /// Polls the link.
    fn next(&mut self) -> Result<Value, Fail> {
        let mut buf = vec![in self.alloc; 0u8; 4_096]?;
        let event = self.link.next(buf.as_mut_slice());
        event_value(self.alloc, event, buf.as_slice())
    }

    /// The sends so far: the peer, the bytes, and whether each failed.
    fn sent(&self) -> Result<Value, Fail> {
        let mut answer = Values::new(self.alloc);
        push_sent(&mut answer, &self.link)?;
        Ok(Value::List(answer))
    }

    /// Sends a text to a port.
    fn send(&mut self, args: &Values) -> Result<Value, Fail> {
        let peer = node_of(number_at(args, 0)?)?;
        is_done(self.link.send(peer, text_at(args, 1)?.as_slice()))
    }
}

impl Part for LinkCalls {
    fn call(&mut self, word: &[u8], args: &Values) -> Result<Value, Fail> {
        match call_of(&CALLS, word) {
            Some(Call::Link) => self.begin(args),
            Some(Call::Listen) => self.listen(args),
            Some(Call::Next) => self.next(),
            Some(Call::Send) => self.send(args),
            Some(Call::Sent) => self.sent(),
            None => no_call(),
        }
    }
}
