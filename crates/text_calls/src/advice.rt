//! Calls of what a person is told beside the line of a status.

use call_rows::{Part, call_of, list_at, no_call, number_at, port_at, texts_at};
use do_advice::{Watched, push_nodes, push_raised, push_unheard};
use do_base::{CallList, MemSink, NodeId, Peers, PutFail, Text, Texts, Value, Values, write_all};
use std::alloc::Global;
use std::test::Fail;

/// What a row calls.
#[derive(Clone, Copy)]
enum Call {
    Record,
    Transcript,
    Nodes,
    Taken,
    Unheard,
    Raised,
}

/// The words of the calls.
const CALLS: [(&[u8], Call); 6] = [
    (b"record", Call::Record),
    (b"transcript", Call::Transcript),
    (b"nodes", Call::Nodes),
    (b"taken", Call::Taken),
    (b"unheard", Call::Unheard),
    (b"raised", Call::Raised),
];

/// Lines, of which none is kept.
#[derive(Drop)]
pub(crate) struct AdviceCalls {
    alloc: Global,
}

/// The node of a port among the arguments.
fn node_at(args: &Values, at: usize) -> Result<NodeId, Fail> {
    Ok(NodeId::new(port_at(args, at)?).ok_or("no port")?)
}

/// Adds the nodes of a list of ports.
fn add_nodes(nodes: &mut Peers, ports: &Values) -> Result<(), Fail> {
    for at in 0..ports.len() {
        nodes.push(node_at(ports, at)?)?;
    }
    Ok(())
}

/// The nodes of a list of ports.
fn nodes_in(ports: &Values) -> Result<Peers, Fail> {
    let mut nodes = Peers::new(ports.allocator());
    add_nodes(&mut nodes, ports)?;
    Ok(nodes)
}

/// The line of the nodes of a world, where a port is none of theirs.
fn line_of_nodes(alloc: Global, own: NodeId, nodes: &Peers) -> Result<Value, Fail> {
    let mut line = Text::new(alloc);
    push_nodes(&mut line, own, nodes.as_slice())?;
    Ok(Value::Text(line))
}

/// Writes what comes in these pieces.
fn write_pieces(out: &mut Watched<MemSink>, pieces: &Texts) -> Result<(), PutFail> {
    for piece in pieces.as_slice() {
        write_all(out, piece.as_slice())?;
    }
    Ok(())
}

impl AdviceCalls {
    /// Calls that take memory here.
    pub(crate) fn new(alloc: Global) -> AdviceCalls {
        AdviceCalls { alloc }
    }

    /// How many exceptions are counted in what comes in these pieces.
    fn count_raised(&self, args: &Values, is_record: bool) -> Result<Value, Fail> {
        let pieces = texts_at(args, 0)?;
        let sink = MemSink::new(self.alloc, CallList::new(self.alloc))?;
        let mut out = Watched::new(sink, is_record);
        write_pieces(&mut out, &pieces)?;
        Ok(Value::Num(i64::try_from(out.raised())?))
    }

    /// The line of the nodes of a world, where a port is none of theirs.
    fn nodes(&self, args: &Values) -> Result<Value, Fail> {
        let own = node_at(args, 0)?;
        let nodes = nodes_in(list_at(args, 1)?)?;
        line_of_nodes(self.alloc, own, &nodes)
    }

    /// The line of a port that is taken, or at which nothing can be heard.
    fn unheard(&self, args: &Values, is_taken: bool) -> Result<Value, Fail> {
        let node = node_at(args, 0)?;
        let mut line = Text::new(self.alloc);
        push_unheard(&mut line, node, is_taken)?;
        Ok(Value::Text(line))
    }

    /// The line of how many starts an exception ended.
    fn raised(&self, args: &Values) -> Result<Value, Fail> {
        let count = u64::try_from(number_at(args, 0)?)?;
        let mut line = Text::new(self.alloc);
        push_raised(&mut line, count)?;
        Ok(Value::Text(line))
    }
}

impl Part for AdviceCalls {
    fn call(&mut self, word: &[u8], args: &Values) -> Result<Value, Fail> {
        match call_of(&CALLS, word) {
            Some(Call::Record) => self.count_raised(args, true),
            Some(Call::Transcript) => self.count_raised(args, false),
            Some(Call::Nodes) => self.nodes(args),
            Some(Call::Taken) => self.unheard(args, true),
            Some(Call::Unheard) => self.unheard(args, false),
            Some(Call::Raised) => self.raised(args),
            None => no_call(),
        }
    }
}
