//! Which frames a peer may not send.
ghost use Rattle.std.specs.Prelude.{◌≡◌, if◌then◌else◌, nat_lt};
ghost use Rattle.do_export.specs.Counts.{count_of};
ghost use Rattle.do_network.specs.Faults.{answer_fault, ask_fault, is_awaited, peer_fault};
ghost use Rattle.do_network.specs.Faults.{release_fault, settle_fault};
ghost use Rattle.do_rules.specs.Answering.{call_of};

use crate::awaiting::awaited;
use do_base::{CallId, NodeId, Oid, Token};
use do_export::OverRelease;
use do_frames::Frame;
use do_network::PeerFault;
use do_part::Part;
use do_rules::Answered;

/// Whether an invocation waits for an answer.
#[tactic(auto, using(crate::proofs::AwaitedBelow::some_awaits))]
fn is_awaited(part: &Part, call: &Answered) -> bool
    ensures { result ≡ is_awaited (call_of call.now) part.now.own.node }
{
    awaited(part, call).is_some()
}

/// The fault of an answer that nothing waits for and whose call was not given up.
fn answer_fault(part: &Part, call: &Answered) -> Option<PeerFault>
    ensures { result ≡ answer_fault part.now.own (call_of call.now) }
{
    if is_awaited(part, call) || part.is_late(call.peer, call.number, call.root) {
        return None;
    }
    let (node, number) = (part.port(), call.number);
    Some(PeerFault::UnknownCall(CallId { node, number }))
}

/// The fault of an answer to an ask that is not kept.
fn ask_fault(part: &Part, from: NodeId, serial: u64, token: Token) -> Option<PeerFault>
    ensures { result ≡ ask_fault part.now.own from serial token }
{
    let node = from;
    if part.is_asked(Oid { node, serial }, token) {
        return None;
    }
    Some(PeerFault::UnknownToken(token))
}

/// The fault of a release of more names than the peer was sent.
fn release_fault(part: &Part, from: NodeId, serial: u64, asked: u64) -> Option<PeerFault>
    ensures { result ≡ release_fault (count_of part.now.own.counts from serial) asked }
{
    let had = part.count(from, serial);
    if had < asked {
        return Some(PeerFault::OverRelease(OverRelease { had, asked }));
    }
    None
}

/// The fault of an end of a lend that is not kept.
fn settle_fault(part: &Part, from: NodeId, number: u64) -> Option<PeerFault>
    ensures { result ≡ settle_fault part.now.own from number }
{
    if part.is_lent(from, number) {
        return None;
    }
    let lender = part.port();
    Some(PeerFault::UnknownToken(Token { lender, number }))
}

/// A call that a peer answers under a number.
fn call_to(peer: NodeId, number: u64, root: bool) -> Answered
    ensures { result ≡ record { peer = peer; number = number; root = root } }
{
    Answered { peer, number, root }
}

/// Why a peer may not send a frame, if it may not.
pub fn peer_fault(part: &Part, from: NodeId, frame: &Frame) -> Option<PeerFault>
    ensures { result ≡ peer_fault part.now.own from frame.now }
{
    match frame {
        Frame::Reply { call, .. } => answer_fault(part, &call_to(from, *call, false)),
        Frame::Raised { call, .. } => answer_fault(part, &call_to(from, *call, false)),
        Frame::RootAnswer { call, .. } => answer_fault(part, &call_to(from, *call, true)),
        Frame::Granted { serial, token } => ask_fault(part, from, *serial, *token),
        Frame::Gone { serial, token } => ask_fault(part, from, *serial, *token),
        Frame::Release { serial, amount } => release_fault(part, from, *serial, *amount),
        Frame::Settle { number } => settle_fault(part, from, *number),
        Frame::Call { .. } => None,
        Frame::Oneway { .. } => None,
        Frame::RootAsk { .. } => None,
        Frame::Retain { .. } => None,
        Frame::Shutdown => None,
    }
}
