//! The peers of a node that is served, by rising port.
ghost use Rattle.std.specs.Prelude.{◌≡◌, ◌≤◌, length, IfOk, OnOk};
ghost use Rattle.do_serve.specs.Peers.{change_at, fed, told_ended, sent_to, take_among, end_among};
ghost use Rattle.do_serve.specs.{Peers.{closed_among, Finds, Takes}, Arrivals.IsArrived};

use crate::far::{Arrival, Far};
use crate::site::Serving;
use do_base::NodeId;
use do_network::Input;
use std::alloc::AllocError;

/// The next whole frame of a peer, or a close where a fault stands in its place.
fn arrived(far: &mut Far) -> Result<Option<Input>, AllocError>
    ensures { IfOk result (λ input. IsArrived far.old far.new input) }
{
    let port = far.port();
    match far.arrive()? {
        Arrival::Frame(frame) => Ok(Some(Input::Frame(port, frame))),
        Arrival::Faulty => Ok(Some(Input::Close(port))),
        Arrival::Nothing => Ok(None),
    }
}

/// The same, where the node takes from the peer.
fn take_one<S: Serving>(site: &S, far: &mut Far) -> Result<Option<Input>, AllocError>
    ensures { IfOk result (λ input. Takes S.rules (S.part site.now) far.old far.new input) }
{
    if site.can_take(far.port()) {
        return arrived(far);
    }
    Ok(None)
}

/// The first whole frame of the first peer from which the node takes, or a close where a fault
/// stands in its place.
pub(crate) fn take_among<S: Serving>(
    site: &S,
    fars: &mut [Far],
) -> Result<Option<Input>, AllocError>
    ensures { IfOk result (λ input. Finds (take_among S.rules (S.part site.now) fars.old)
        fars.old fars.new input) }
{
    let Some((first, others)) = fars.split_first_mut() else {
        return Ok(None);
    };
    if let Some(input) = take_one(site, first)? {
        return Ok(Some(input));
    }
    take_among(site, others)
}

/// The end of the first peer whose end was told and from which the node takes.
pub(crate) fn end_among<S: Serving>(site: &S, fars: &mut [Far]) -> Option<Input>
    ensures { Finds (end_among S.rules (S.part site.now) fars.old) fars.old fars.new result }
{
    let Some((first, others)) = fars.split_first_mut() else {
        return None;
    };
    let port = first.port();
    if first.is_ended() && site.can_take(port) {
        first.set_ended(false);
        return Some(Input::Ended(port));
    }
    end_among(site, others)
}

/// How many ends are closed.
pub(crate) fn closed_among<S: Serving>(site: &S, fars: &[Far]) -> usize
    ensures value { result ≡ closed_among S.rules (S.part site.now) fars.now }
    ensures within { result ≤ length fars.now }
{
    let Some((first, others)) = fars.split_first() else {
        return 0;
    };
    let more = closed_among(site, others);
    if site.is_open(first.port()) {
        more
    } else {
        more + 1
    }
}

/// More bytes came from a peer.
pub(crate) fn feed_at(fars: &mut [Far], port: NodeId, piece: &[u8]) -> Result<(), AllocError>
    ensures { OnOk result (fars.new ≡ change_at port (fed piece.now) fars.old) }
{
    let Some((first, others)) = fars.split_first_mut() else {
        return Ok(());
    };
    if first.port() == port {
        return first.feed(piece);
    }
    feed_at(others, port, piece)
}

/// A peer's end was told.
pub(crate) fn end_at(fars: &mut [Far], port: NodeId)
    ensures { fars.new ≡ change_at port told_ended fars.old }
{
    let Some((first, others)) = fars.split_first_mut() else {
        return;
    };
    if first.port() == port {
        first.set_ended(true);
        return;
    }
    end_at(others, port)
}

/// A frame was sent to a peer, which may have failed.
pub fn sent_at(fars: &mut [Far], port: NodeId, failed: bool)
    ensures { fars.new ≡ change_at port (sent_to failed) fars.old }
{
    let Some((first, others)) = fars.split_first_mut() else {
        return;
    };
    if first.port() == port {
        first.sent(failed);
        return;
    }
    sent_at(others, port, failed)
}
