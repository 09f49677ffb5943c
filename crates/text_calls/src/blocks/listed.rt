//! What a check lists of a node.

use call_rows::{call_of, list_at, object_at, port_at};
use do_base::{NodeId, Peers, Values};
use do_class::ClassId;
use do_trace::{Entry, EntryList, NodeLine, ObjLine, ObjLines, Snapshot};
use std::alloc::{AllocError, Global};
use std::test::Fail;

/// What a row adds to what is listed of a node.
#[derive(Clone, Copy)]
enum Addition {
    Root,
    Closed,
    Object,
    Entry,
}

/// The words of what is added.
const ADDITIONS: [(&[u8], Addition); 4] = [
    (b"root", Addition::Root),
    (b"closed", Addition::Closed),
    (b"object", Addition::Object),
    (b"entry", Addition::Entry),
];

/// The node of a port.
pub(crate) fn node_at(args: &Values, at: usize) -> Result<NodeId, Fail> {
    Ok(NodeId::new(port_at(args, at)?).ok_or("no port is 0")?)
}

/// Lists one more node, which has nothing.
pub(crate) fn push_node(
    listed: &mut Snapshot,
    alloc: Global,
    node: NodeId,
) -> Result<(), AllocError> {
    listed.nodes.push(NodeLine {
        node,
        root: None,
        closed: Peers::new(alloc),
        objects: ObjLines::new(alloc),
        entries: EntryList::new(alloc),
    })
}

/// Sets the root.
fn set_root(line: &mut NodeLine, args: &Values) -> Result<(), Fail> {
    line.root = Some(object_at(args, 0)?);
    Ok(())
}

/// Lists a closed peer.
fn push_closed(line: &mut NodeLine, args: &Values) -> Result<(), Fail> {
    let peer = node_at(args, 0)?;
    Ok(line.closed.push(peer)?)
}

/// Lists an object of the pair's class with its slots.
fn push_object(line: &mut NodeLine, args: &Values) -> Result<(), Fail> {
    let class = ClassId(0);
    let oid = object_at(args, 0)?;
    let slots = list_at(args, 1)?.clone()?;
    Ok(line.objects.push(ObjLine { oid, class, slots })?)
}

/// Lists an entry.
fn push_entry(line: &mut NodeLine, args: &Values) -> Result<(), Fail> {
    let peer = node_at(args, 0)?;
    let object = object_at(args, 1)?;
    Ok(line.entries.push(Entry { peer, object })?)
}

/// Adds to what is listed of the last node.
pub(crate) fn extend(line: &mut NodeLine, word: &[u8], args: &Values) -> Result<(), Fail> {
    match call_of(&ADDITIONS, word) {
        Some(Addition::Root) => set_root(line, args),
        Some(Addition::Closed) => push_closed(line, args),
        Some(Addition::Object) => push_object(line, args),
        Some(Addition::Entry) => push_entry(line, args),
        None => Err(Fail::from("no such call")),
    }
}
