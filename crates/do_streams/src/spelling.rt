//! The oldest frame that waits, spelled.
ghost use Rattle.std.specs.Prelude.{◌≡◌, ◌≤◌, ◌<◌, ◌+◌, ◌++◌, ◌∷◌, ◌==◌, [], IfOk, IfSome, IsNone};
ghost use Rattle.std.specs.Prelude.{List, MatchOption, None, OnErr, length, OnOk, Some, position};
ghost use Rattle.std.specs.Prelude.{slice_get, true, ℕ};
ghost use Rattle.do_coder.specs.declared.recent.pair.Pair.{Pair};
ghost use Rattle.do_frames.specs.Frames.{frame_spelling, raw};
ghost use Rattle.do_network.specs.Links.{Framed, Greeting};
ghost use Rattle.do_streams.specs.{Ordered.{AllPlaced, ArePorts}, Reading.AllKnown};
ghost use Rattle.do_streams.specs.Streamed.{outbox_of, sending_of, spelled_first};
ghost use Rattle.do_streams.specs.declared.end.{End.End, Outgoing.Outgoing};

use crate::end::{End, Outgoing, greeting};
use crate::spelled::Spelled;
use crate::waiting::Waiting;
use do_base::{Items, Text};
use do_ported::Ports;
use std::alloc::{AllocError, Global};

/// Whether the greeting over an end was fetched.
fn is_greeted(ends: &Items<End>, at: usize) -> bool
    requires { at < length ends.now }
    ensures { (e : End) → slice_get ends.now at ≡ Some e → result ≡ e.greeted }
{
    ends.as_slice()[at].greeted
}

/// Where the end stands of the peer to which the oldest frame goes that waits. None exactly where
/// none waits.
fn next_end(ports: &Ports, waiting: &Waiting) -> Option<usize>
    requires placed { AllPlaced ports.now waiting.now.frames }
    requires oldest { waiting.now.oldest ≡ slice_get waiting.now.frames 0 }
    ensures which { MatchOption result (waiting.now.frames ≡ [])
        (λ at. (x : Outgoing) × (slice_get waiting.now.frames 0 ≡ Some x)
        × (position (λ p. x.to == p) ports.now ≡ Some at)) }
    ensures within { IfSome result (λ at. at < length ports.now) }
{
    let Some(next) = waiting.oldest() else {
        return None;
    };
    ports.place(next.to)
}

/// Spells the greeting of the stream over an end, which is greeted then.
fn spell_greeting(alloc: Global, end: &mut End) -> Result<Spelled, AllocError>
    ensures spelled { IfOk result (λ s. sending_of s
        ≡ record { to = end.old.peer; piece = Greeting }) }
    ensures end { OnOk result (end.new ≡ record end.old { greeted = true }) }
    ensures err { OnErr result (end.new ≡ end.old) }
{
    let bytes = greeting(alloc)?;
    end.greet();
    Ok(Spelled {
        to: end.peer,
        frame: None,
        bytes,
    })
}

/// A frame with its peer, spelled by names that were sent before.
fn spelled_frame(next: Outgoing, bytes: Text) -> Spelled
    requires spelled { (names : List Pair) × (bytes ≡ frame_spelling names next.frame) }
    requires short { length bytes ≤ 2098181 }
    ensures { (names : List Pair) → bytes ≡ frame_spelling names next.frame → sending_of result
        ≡ record { to = next.to; piece = Framed next.frame (raw names next.frame) } }
{
    let Outgoing { to, frame } = next;
    Spelled {
        to,
        frame: Some(frame),
        bytes,
    }
}

/// Spells what is to be fetched next: the oldest frame that waits, or the greeting before it. None
/// exactly where no frame waits. If memory runs out, what waits is as before.
fn spell_next(
    alloc: Global,
    ports: &Ports,
    ends: &mut Items<End>,
    waiting: &mut Waiting,
) -> Result<Option<Spelled>, AllocError>
    requires ordered { ArePorts ports.now ends.old }
    requires placed { AllPlaced ports.now waiting.old.frames }
    requires oldest { waiting.old.oldest ≡ slice_get waiting.old.frames 0 }
    ensures links { (outbox_of ends.new waiting.new.frames).links
        ≡ (outbox_of ends.old waiting.old.frames).links }
    ensures sent { IfOk result (λ s. (outbox_of ends.old waiting.old.frames).sent
        ≡ spelled_first s ++ (outbox_of ends.new waiting.new.frames).sent) }
    ensures none { IfOk result (λ s. IsNone s → waiting.new.frames ≡ []) }
    ensures err { OnErr result ((outbox_of ends.new waiting.new.frames).sent
        ≡ (outbox_of ends.old waiting.old.frames).sent) }
    ensures spare { waiting.old.room ≤ waiting.new.room }
    ensures bare { waiting.old.bare ≤ waiting.new.bare }
    ensures shown { waiting.new.shown ≡ waiting.old.shown }
    ensures known { (classes : ℕ) → AllKnown classes ends.old → AllKnown classes ends.new }
    ensures ordered { ArePorts ports.now ends.new }
    ensures placed { AllPlaced ports.now waiting.new.frames }
{
    let Some(at) = next_end(ports, waiting) else {
        return Ok(None);
    };
    if !is_greeted(ends, at) {
        return Ok(Some(spell_greeting(alloc, ends.at_mut(at))?));
    }
    let Some(next) = waiting.oldest() else {
        return Ok(None);
    };
    let bytes = ends.at_mut(at).spell(alloc, &next.frame)?;
    let Some(taken) = waiting.take_oldest() else {
        unreachable!();
    };
    Ok(Some(spelled_frame(taken, bytes)))
}

/// Spells what is to be fetched next, if that is not done: then nothing is spelled exactly where no
/// frame waits. If memory runs out, what waits is as before.
///
/// It is a call of its own, since most steps spell nothing.
#[inline(never)]
pub(crate) fn spell_if_none(
    alloc: Global,
    spelled: &mut Option<Spelled>,
    ports: &Ports,
    ends: &mut Items<End>,
    waiting: &mut Waiting,
) -> Result<(), AllocError>
    requires ordered { ArePorts ports.now ends.old }
    requires placed { AllPlaced ports.now waiting.old.frames }
    ensures links { (outbox_of ends.new waiting.new.frames).links
        ≡ (outbox_of ends.old waiting.old.frames).links }
    ensures sent { spelled_first spelled.new ++ (outbox_of ends.new waiting.new.frames).sent
        ≡ spelled_first spelled.old ++ (outbox_of ends.old waiting.old.frames).sent }
    ensures none { OnOk result (spelled.new ≡ None → waiting.new.frames ≡ []) }
    ensures spare { waiting.old.room ≤ waiting.new.room }
    ensures bare { waiting.old.bare ≤ waiting.new.bare }
    ensures shown { waiting.new.shown ≡ waiting.old.shown }
    ensures known { (classes : ℕ) → AllKnown classes ends.old → AllKnown classes ends.new }
    ensures ordered { ArePorts ports.now ends.new }
    ensures placed { AllPlaced ports.now waiting.new.frames }
{
    if spelled.is_some() {
        return Ok(());
    }
    waiting.bring_oldest();
    *spelled = spell_next(alloc, ports, ends, waiting)?;
    Ok(())
}
