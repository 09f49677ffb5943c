//! What the arguments and answers of several files share.

use call_rows::number_at;
use do_base::{CallList, NodeId, Peers, Text, Texts, Value, Values};
use std::alloc::{AllocError, Global};
use std::test::Fail;

/// Adds the numbers of calls.
fn push_calls(calls: &mut CallList, values: &Values) -> Result<(), Fail> {
    for at in 0..values.len() {
        calls.push(u64::try_from(number_at(values, at)?)?)?;
    }
    Ok(())
}

/// The numbers of calls that are to fail.
pub(crate) fn calls_of(values: &Values) -> Result<CallList, Fail> {
    let mut calls = CallList::new(values.allocator());
    push_calls(&mut calls, values)?;
    Ok(calls)
}

/// The node of a port.
pub(crate) fn node_of(port: i64) -> Result<NodeId, Fail> {
    Ok(NodeId::new(u16::try_from(port)?).ok_or("no port")?)
}

/// A port as a value.
pub(crate) fn port_value(node: NodeId) -> Value {
    Value::Num(i64::from(node.port()))
}

/// Adds the nodes of ports.
fn push_peers(peers: &mut Peers, ports: &Values) -> Result<(), Fail> {
    for at in 0..ports.len() {
        peers.push(node_of(number_at(ports, at)?)?)?;
    }
    Ok(())
}

/// The nodes of ports.
pub(crate) fn peers_of(ports: &Values) -> Result<Peers, Fail> {
    let mut peers = Peers::new(ports.allocator());
    push_peers(&mut peers, ports)?;
    Ok(peers)
}

/// Adds the words of a line.
fn push_words(words: &mut Texts, line: &[u8]) -> Result<(), AllocError> {
    for word in line.split(|byte| *byte == b' ') {
        if !word.is_empty() {
            words.push(Text::from_slice(words.allocator(), word)?)?;
        }
    }
    Ok(())
}

/// The words of a line, of which spaces stand between each two; an empty line has none.
pub(crate) fn words_of(alloc: Global, line: &[u8]) -> Result<Texts, AllocError> {
    let mut words = Texts::new(alloc);
    push_words(&mut words, line)?;
    Ok(words)
}

/// Adds words, a space behind each.
fn push_spaced(line: &mut Text, words: &[&[u8]]) -> Result<(), AllocError> {
    for word in words {
        line.push_bytes(word)?;
        line.push(b' ')?;
    }
    Ok(())
}

/// A line of these words.
pub(crate) fn line_of_words(alloc: Global, words: &[&[u8]]) -> Result<Text, AllocError> {
    let mut line = Text::new(alloc);
    push_spaced(&mut line, words)?;
    Ok(line)
}
