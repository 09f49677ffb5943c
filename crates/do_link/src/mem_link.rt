//! A link whose events stand in memory, and whose faults are listed beforehand.
//!
//! The link in memory keeps one entry for each call or event, with the number of empty polls
//! before it, so an empty poll takes no memory.
ghost use Rattle.std.specs.Prelude.{◌≡◌, ◌<◌, ◌≤◌, ◌++◌, ◌∷◌, [], ◌↔◌, length, Some, IfOk, OnOk};
ghost use Rattle.std.specs.{Prelude.{IsErrOf, IsOk, ◌+◌}, List.All};
ghost use Rattle.do_base.specs.outside.{Causes.{next_count, Rose}, InMemory.FailsNext};
ghost use Rattle.do_output.specs.Told.{TellsMore};
ghost use Rattle.do_link.specs.Told.{IsWithin, Listened, Came, called, handed, came};
ghost use Rattle.do_link.specs.InMemory.{IsPiece, next_event, next_script, quiet, all_told};
ghost use Rattle.do_link.specs.InMemory.{kept_told, answer_by, faults_after, sent_as};

use crate::link::{Link, LinkEvent, LinkFail};
use crate::script::{ScriptEvent, ScriptList, Sent, SentList};
use do_base::{CallList, Items, NodeId, Peers, Reserved, Text};
use std::alloc::{AllocError, Global};
use std::marker::Model;

/// A call or an event that a link in memory keeps.
#[derive(Debug, Drop)]
pub(crate) enum Kept {
    Listened(NodeId, Peers, bool),
    Came(ScriptEvent),
    Handed(Sent),
}

/// What is kept, and how many polls before it found nothing.
#[derive(Debug, Drop)]
pub(crate) struct Entry {
    quiets: u64,
    kept: Kept,
}

/// A link in memory, which gives the events of a script and whose listed sends fail.
///
/// After its script nothing comes. It tells its list until its count of empty polls reaches
/// 2^64 - 1. Polls take no memory: `new`, `listen` and `send` take their room.
#[derive(Debug, Drop)]
pub struct MemLink {
    alloc: Global,
    /// The events to come, the next one last.
    script: Vec<ScriptEvent>,
    listen_fails: bool,
    fail: CallList,
    sends: u64,
    faults: u64,
    quiets: u64,
    sent: SentList,
    log: Reserved<Entry>,
    waiting: u64,
}

impl Model for MemLink {
    ghost use Rattle.std.specs.{Prelude.{reverse, length, ◌≤◌}, List.All};
    ghost use Rattle.do_link.specs.InMemory.{LinkState, IsPiece, all_told, told_below};

    ghost Value = { LinkState };

    ghost view = { λ s. record {
      script = reverse s.script.items;
      listen_fails = s.listen_fails;
      fail = s.fail;
      sends = s.sends;
      faults = s.faults;
      quiets = s.quiets;
      sent = s.sent;
      told = told_below s.quiets (all_told s.log.items s.waiting);
    } };

    ghost invariant = { λ s. (All IsPiece s.script.items)
        × (length s.script.items ≤ s.log.spare) × (s.waiting ≤ s.quiets) };
}

impl MemLink {
    /// A link before its first call. The pieces of the script have 1 to 4,096 bytes each.
    ///
    /// Whether the listen fails is said beforehand, and so are the numbers of the sends that fail,
    /// counted from 1.
    pub fn new(
        alloc: Global,
        script: ScriptList,
        listen_fails: bool,
        fail: CallList,
    ) -> Result<MemLink, AllocError>
        requires { All IsPiece script }
        ensures { IfOk result (λ link. link ≡ record {
          script = script;
          listen_fails = listen_fails;
          fail = fail;
          sends = 0;
          faults = 0;
          quiets = 0;
          sent = [];
          told = Some [];
        }) }
    {
        let mut log = Reserved::new(alloc);
        log.reserve(script.len())?;
        let mut script = script.into_vec();
        script.reverse();
        Ok(MemLink {
            alloc,
            script,
            listen_fails,
            fail,
            sends: 0,
            faults: 0,
            quiets: 0,
            sent: Items::new(alloc),
            log,
            waiting: 0,
        })
    }

    /// The sends so far, in order.
    pub fn sent(&self) -> &SentList
        ensures { result.now ≡ self.now.sent }
    {
        &self.sent
    }
}

/// The answer of a call that may be made to fail.
fn unless(failed: bool) -> Result<(), LinkFail>
    ensures { result ≡ answer_by failed }
{
    if failed {
        Err(LinkFail::Failed)
    } else {
        Ok(())
    }
}

/// A count of faults after a call that may be made to fail.
fn count_fault(faults: u64, failed: bool) -> u64
    ensures { result ≡ faults_after failed faults }
{
    if failed {
        faults.saturating_add(1)
    } else {
        faults
    }
}

/// Gives an event, whose bytes are put at the front of the buffer.
fn give(event: &ScriptEvent, buf: &mut [u8]) -> LinkEvent
    requires piece { IsPiece event.now }
    requires room { 4096 ≤ length buf.old }
    ensures room { length buf.new ≡ length buf.old }
    ensures within { IsWithin (length buf.old) result }
    ensures event { came result buf.new ≡ event.now }
{
    match event {
        ScriptEvent::Bytes(peer, piece) => {
            let count = piece.len();
            buf[..count].copy_from_slice(piece.as_slice());
            LinkEvent::Bytes(*peer, count)
        }
        ScriptEvent::Ended(peer) => LinkEvent::Ended(*peer),
        ScriptEvent::Quiet => LinkEvent::Quiet,
    }
}

/// Keeps a call or an event, into room that was made before.
fn keep(log: &mut Reserved<Entry>, waiting: &mut u64, kept: Kept)
    requires { 0 < log.old.spare }
    ensures told { all_told log.new.items waiting.new
        ≡ all_told log.old.items waiting.old ++ kept_told kept ∷ [] }
    ensures spare { log.new.spare + 1 ≡ log.old.spare }
    ensures none { waiting.new ≡ 0 }
{
    log.post(Entry {
        quiets: *waiting,
        kept,
    });
    *waiting = 0;
}

impl MemLink {
    /// Counts a poll that found nothing.
    fn found_nothing(&mut self) -> LinkEvent
        ensures answer { result ≡ LinkEvent.Quiet }
        ensures told { TellsMore self.old.told self.new.told (quiet ∷ []) }
        ensures counted { self.new ≡ record self.old {
          quiets = next_count self.old.quiets;
          told = self.new.told;
        } }
    {
        self.quiets = self.quiets.saturating_add(1);
        self.waiting = self.waiting.saturating_add(1);
        LinkEvent::Quiet
    }
}

impl Link for MemLink {
    ghost told = { λ s. s.told };

    ghost faults = { λ s. s.faults };

    ghost quiets = { λ s. s.quiets };

    /// Fails exactly where it was made to fail, which is then a fault.
    fn listen(&mut self, port: NodeId, peers: &[NodeId]) -> Result<(), LinkFail>
        ensures told { TellsMore self.old.told self.new.told
            (called (Listened port peers.now) result) }
        ensures later { self.old.faults ≤ self.new.faults }
        ensures failed { IsErrOf result LinkFail.Failed → Rose self.old.faults self.new.faults }

        // It fails where it was made to, and then counts a fault; nothing else changes.
        ensures memory { IsErrOf result LinkFail.Memory → self.new ≡ self.old }
        ensures done { ¬ (IsErrOf result LinkFail.Memory)
            → (result ≡ answer_by self.old.listen_fails) × (self.new ≡ record self.old {
              faults = faults_after self.old.listen_fails self.old.faults;
              told = self.new.told;
            }) }
    {
        let peers = Items::from_slice(self.alloc, peers)?;
        self.log.reserve(self.script.len() + 1)?;
        let failed = self.listen_fails;
        self.faults = count_fault(self.faults, failed);
        keep(
            &mut self.log,
            &mut self.waiting,
            Kept::Listened(port, peers, failed),
        );
        unless(failed)
    }

    /// Gives the next event of the script. Nothing else changes but what is told.
    fn next(&mut self, buf: &mut [u8]) -> LinkEvent
        requires { 4096 ≤ length buf.old }
        ensures room { length buf.new ≡ length buf.old }
        ensures within { IsWithin (length buf.old) result }
        ensures told { TellsMore self.old.told self.new.told (Came (came result buf.new) ∷ []) }
        ensures later { self.old.faults ≤ self.new.faults }
        ensures polled { self.old.quiets ≤ self.new.quiets }
        ensures quiet { result ≡ LinkEvent.Quiet → Rose self.old.quiets self.new.quiets }

        ensures event { came result buf.new ≡ next_event self.old.script }
        ensures rest { self.new ≡ record self.old {
          script = next_script self.old.script;
          quiets = self.new.quiets;
          told = self.new.told;
        } }
    {
        let Some(event) = self.script.pop() else {
            return self.found_nothing();
        };
        let answer = give(&event, buf);
        if matches!(&answer, LinkEvent::Quiet) {
            return self.found_nothing();
        }
        keep(&mut self.log, &mut self.waiting, Kept::Came(event));
        answer
    }

    /// Keeps the bytes. It fails exactly where the send is listed, which is then a fault.
    fn send(&mut self, to: NodeId, bytes: &[u8]) -> Result<(), LinkFail>
        ensures told { TellsMore self.old.told self.new.told
            (called (handed to bytes.now) result) }
        ensures later { self.old.faults ≤ self.new.faults }
        ensures failed { IsErrOf result LinkFail.Failed → Rose self.old.faults self.new.faults }

        // Unless memory ran out, the send is counted and kept, and nothing else changes.
        ensures memory { IsErrOf result LinkFail.Memory → self.new ≡ self.old }
        ensures listed { IsErrOf result LinkFail.Failed → FailsNext self.old.fail self.old.sends }
        ensures sent { IsOk result → ¬ (FailsNext self.old.fail self.old.sends) }
        ensures done { ¬ (IsErrOf result LinkFail.Memory)
            → self.new ≡ record self.old {
              sends = next_count self.old.sends;
              faults = self.new.faults;
              sent = self.old.sent ++ sent_as to bytes.now result ∷ [];
              told = self.new.told;
            } }
    {
        let bytes = Text::from_slice(self.alloc, bytes)?;
        let again = bytes.clone()?;
        self.log.reserve(self.script.len() + 1)?;
        let sends = self.sends.saturating_add(1);
        let failed = self.fail.contains(&sends);
        self.sent.push(Sent { to, bytes, failed })?;
        self.sends = sends;
        self.faults = count_fault(self.faults, failed);
        let sent = Sent {
            to,
            bytes: again,
            failed,
        };
        keep(&mut self.log, &mut self.waiting, Kept::Handed(sent));
        unless(failed)
    }
}
