//! Reading the payloads that hold no packet.
ghost use Rattle.std.specs.Prelude.{◌≡◌, ◌≤◌, ◌≢◌, List, IfOk, IfErr};
ghost use Rattle.do_grammar.specs.{RestAnswers.Gives, declared.fault.ReadFault.TheVariants.Memory};
ghost use Rattle.do_coder.specs.declared.recent.pair.Pair.{Pair};
ghost use Rattle.do_frames.specs.{Frames.after_frame, Payloads.{token_at, raised_at, root_ask_at}};
ghost use Rattle.do_frames.specs.Payloads.{retain_at, granted_at, gone_at, release_at, settle_at};

use crate::frame::Frame;
use crate::payload::exception::exception_of;
use do_base::{NodeId, Token};
use do_grammar::{ReadFault, num_of};
use std::alloc::Global;

/// The greatest serial, call, token or amount.
pub const TOP: u64 = 9_223_372_036_854_775_807;

/// A serial and a token, and the bytes behind them.
#[tactic(auto, unfolding(crate::specs::Payloads::token_at))]
fn token_of(bytes: &[u8]) -> Result<((u64, Token), &[u8]), ReadFault>
    ensures gives { Gives (λ x. (x.0, x.1.now)) result (token_at bytes.now) }
    ensures no_memory { IfErr result (λ fault. fault ≢ Memory) }
{
    let (serial, rest) = num_of(bytes, 1, TOP)?;
    let (port, rest) = num_of(rest, 1, 65_535)?;
    let (number, rest) = num_of(rest, 1, TOP)?;
    match NodeId::new(port as u16) {
        Some(lender) => Ok(((serial, Token { lender, number }), rest)),
        None => Err(ReadFault::Short),
    }
}

/// The payload of a `Raised`, and the bytes behind it.
#[tactic(auto, unfolding(crate::specs::Payloads::raised_at))]
pub(crate) fn raised_of(alloc: Global, bytes: &[u8]) -> Result<(Frame, &[u8]), ReadFault>
    ensures gives { Gives (λ x. (x.0, x.1.now)) result (raised_at bytes.now) }
    ensures stays { IfOk result (λ x. (table : List Pair) → after_frame table x.0 ≡ table) }
{
    let (call, rest) = num_of(bytes, 1, TOP)?;
    match exception_of(alloc, rest) {
        Ok((exc, rest)) => Ok((Frame::Raised { call, exc }, rest)),
        Err(e) => Err(e),
    }
}

/// The payload of a `RootAsk`, and the bytes behind it.
#[tactic(auto, unfolding(crate::specs::Payloads::root_ask_at))]
pub(crate) fn root_ask_of(bytes: &[u8]) -> Result<(Frame, &[u8]), ReadFault>
    ensures gives { Gives (λ x. (x.0, x.1.now)) result (root_ask_at bytes.now) }
    ensures stays { IfOk result (λ x. (table : List Pair) → after_frame table x.0 ≡ table) }
    ensures no_memory { IfErr result (λ fault. fault ≢ Memory) }
{
    let (call, rest) = num_of(bytes, 1, TOP)?;
    Ok((Frame::RootAsk { call }, rest))
}

/// The payload of a `Retain`, and the bytes behind it.
#[tactic(auto, unfolding(crate::specs::Payloads::retain_at))]
pub(crate) fn retain_of(bytes: &[u8]) -> Result<(Frame, &[u8]), ReadFault>
    ensures gives { Gives (λ x. (x.0, x.1.now)) result (retain_at bytes.now) }
    ensures stays { IfOk result (λ x. (table : List Pair) → after_frame table x.0 ≡ table) }
    ensures no_memory { IfErr result (λ fault. fault ≢ Memory) }
{
    match token_of(bytes) {
        Ok(((serial, token), rest)) => Ok((Frame::Retain { serial, token }, rest)),
        Err(e) => Err(e),
    }
}

/// The payload of a `Granted`, and the bytes behind it.
#[tactic(auto, unfolding(crate::specs::Payloads::granted_at))]
pub(crate) fn granted_of(bytes: &[u8]) -> Result<(Frame, &[u8]), ReadFault>
    ensures gives { Gives (λ x. (x.0, x.1.now)) result (granted_at bytes.now) }
    ensures stays { IfOk result (λ x. (table : List Pair) → after_frame table x.0 ≡ table) }
    ensures no_memory { IfErr result (λ fault. fault ≢ Memory) }
{
    match token_of(bytes) {
        Ok(((serial, token), rest)) => Ok((Frame::Granted { serial, token }, rest)),
        Err(e) => Err(e),
    }
}

/// The payload of a `Gone`, and the bytes behind it.
#[tactic(auto, unfolding(crate::specs::Payloads::gone_at))]
pub(crate) fn gone_of(bytes: &[u8]) -> Result<(Frame, &[u8]), ReadFault>
    ensures gives { Gives (λ x. (x.0, x.1.now)) result (gone_at bytes.now) }
    ensures stays { IfOk result (λ x. (table : List Pair) → after_frame table x.0 ≡ table) }
    ensures no_memory { IfErr result (λ fault. fault ≢ Memory) }
{
    match token_of(bytes) {
        Ok(((serial, token), rest)) => Ok((Frame::Gone { serial, token }, rest)),
        Err(e) => Err(e),
    }
}

/// The payload of a `Release`, and the bytes behind it.
#[tactic(auto, unfolding(crate::specs::Payloads::release_at))]
pub(crate) fn release_of(bytes: &[u8]) -> Result<(Frame, &[u8]), ReadFault>
    ensures gives { Gives (λ x. (x.0, x.1.now)) result (release_at bytes.now) }
    ensures stays { IfOk result (λ x. (table : List Pair) → after_frame table x.0 ≡ table) }
    ensures no_memory { IfErr result (λ fault. fault ≢ Memory) }
{
    let (serial, rest) = num_of(bytes, 1, TOP)?;
    let (amount, rest) = num_of(rest, 1, TOP)?;
    Ok((Frame::Release { serial, amount }, rest))
}

/// The payload of a `Settle`, and the bytes behind it.
#[tactic(auto, unfolding(crate::specs::Payloads::settle_at))]
pub(crate) fn settle_of(bytes: &[u8]) -> Result<(Frame, &[u8]), ReadFault>
    ensures gives { Gives (λ x. (x.0, x.1.now)) result (settle_at bytes.now) }
    ensures stays { IfOk result (λ x. (table : List Pair) → after_frame table x.0 ≡ table) }
    ensures no_memory { IfErr result (λ fault. fault ≢ Memory) }
{
    let (number, rest) = num_of(bytes, 1, TOP)?;
    Ok((Frame::Settle { number }, rest))
}
