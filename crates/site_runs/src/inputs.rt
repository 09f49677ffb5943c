//! What a line hands to a site: a line of a schedule, or one of two more.
//!
//! `frame PORT PEER KIND BYTES` is a frame of a peer, its payload in hexadecimal digits, and
//! `ended PORT PEER` tells that the connection to a peer ended.

use bytes::Bytes;
use do_base::NodeId;
use do_frames::{Payload, RawFrame};
use do_grammar::{dec_of, is_text};
use do_network::Input;
use do_sched::{Line, Version, line_from, node_of, nodes_of, word_in};
use std::alloc::Global;
use std::test::Fail;

/// The peer and the kind of a frame, and its payload in digits.
fn header_of(words: &[u8]) -> Option<(NodeId, u8, &[u8])> {
    let (_port, words) = word_in(words)?;
    let (peer, words) = word_in(words)?;
    let (kind, digits) = word_in(words)?;
    let kind = dec_of(kind, 0, 255)? as u8;
    Some((node_of(peer)?, kind, digits))
}

/// The bytes of hexadecimal digits.
fn bytes_of(alloc: Global, digits: &[u8]) -> Result<Bytes, Fail> {
    let bytes = hex::decode(alloc, digits)?;
    Ok(Bytes::copy_from_slice(alloc, bytes.as_slice())?)
}

/// The frame of a peer.
fn frame_of(alloc: Global, words: &[u8]) -> Result<Input, Fail> {
    let Some((peer, kind, digits)) = header_of(words) else {
        return Err("no frame".into());
    };
    let payload = Payload::cut(bytes_of(alloc, digits)?);
    Ok(Input::Frame(peer, RawFrame { kind, payload }))
}

/// The end of the connection to a peer.
fn end_of(words: &[u8]) -> Result<Input, Fail> {
    let (_port, peer) = nodes_of(words).ok_or("no peer")?;
    Ok(Input::Ended(peer))
}

/// What a line of a schedule hands to its node. None exactly where it hands nothing to one.
fn input_of(line: Line) -> Option<Input> {
    match line {
        Line::Start {
            selector,
            values,
            ..
        } => Some(Input::Start { selector, values }),
        Line::Run { .. } => Some(Input::Run),
        Line::Close { peer, .. } => Some(Input::Close(peer)),
        Line::Timeout { .. } => Some(Input::Timeout),
        Line::Take { .. } | Line::Lose { .. } | Line::Check => None,
    }
}

/// What a line of a schedule hands to its node.
fn scheduled(alloc: Global, line: &[u8]) -> Result<Option<Input>, Fail> {
    let line = line_from(alloc, line, Version::Second)?.ok_or("no line")?;
    Ok(input_of(line))
}

/// What a line hands to a site. None exactly where it hands nothing to one.
pub(crate) fn input_in(alloc: Global, line: &[u8]) -> Result<Option<Input>, Fail> {
    match word_in(line) {
        Some((word, words)) if is_text(word, b"frame") => Ok(Some(frame_of(alloc, words)?)),
        Some((word, words)) if is_text(word, b"ended") => Ok(Some(end_of(words)?)),
        _ => scheduled(alloc, line),
    }
}
