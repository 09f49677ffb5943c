//! A spawner whose children are numbers, and whose faults are listed beforehand.
//!
//! The spawner in memory keeps each wait in room that its start took, so that it tells all.
ghost use Rattle.std.specs.Prelude.{◌≡◌, ◌≢◌, ◌<◌, ◌≤◌, ◌↔◌, ◌++◌, ◌∷◌, [], ℕ, length, Some, Ok};
ghost use Rattle.std.specs.Prelude.{IfOk, OnOk, OnErr, IsOk, IsErrOf, true, false, slice_get};
ghost use Rattle.std.specs.Prelude.{slice_set};
ghost use Rattle.do_base.specs.outside.{Causes.{Rose, next_count}, InMemory.FailsNext};
ghost use Rattle.do_output.specs.Told.{TellsMore};
ghost use Rattle.do_lab.specs.Told.{start_told, wait_told};
ghost use Rattle.do_lab.specs.InMemory.{IsRunning, running, status_at};

use crate::spawner::{ChildId, SpawnFail, Spawner};
use do_base::{CallList, Items, Reserved, Texts, Word};
use std::alloc::{AllocError, Global};
use std::marker::Model;

/// The statuses that children end with, in the order of their starts.
pub type StatusList = Items<i32>;

/// A call that a spawner in memory keeps.
#[derive(Debug, Drop)]
pub(crate) enum Kept {
    Started(Texts, Option<u64>),
    Waited(u64, Option<i32>),
}

/// A spawner in memory, whose listed starts and waits fail.
///
/// A child without a listed status ends with 0. It tells each start and each wait: a wait is kept
/// in room that its start took.
#[derive(Debug, Drop)]
pub struct MemSpawner {
    alloc: Global,
    statuses: StatusList,
    fail_start: CallList,
    fail_wait: CallList,
    starts: u64,
    waits: u64,
    faults: u64,
    waited: Vec<bool>,
    log: Reserved<Kept>,
}

impl Model for MemSpawner {
    ghost use Rattle.std.specs.Prelude.{◌≤◌, map};
    ghost use Rattle.do_lab.specs.InMemory.{SpawnState, kept_told, running};

    ghost Value = { SpawnState };

    ghost view = { λ s. record {
      statuses = s.statuses;
      fail_start = s.fail_start;
      fail_wait = s.fail_wait;
      starts = s.starts;
      waits = s.waits;
      faults = s.faults;
      waited = s.waited.items;
      told = map kept_told s.log.items;
    } };

    ghost invariant = { λ s. running s.waited.items ≤ s.log.spare };
}

impl MemSpawner {
    /// A spawner before its first start. It takes no memory of its own so far.
    pub fn new(
        alloc: Global,
        statuses: StatusList,
        fail_start: CallList,
        fail_wait: CallList,
    ) -> Result<MemSpawner, AllocError>
        ensures { result ≡ Ok (record {
          statuses = statuses;
          fail_start = fail_start;
          fail_wait = fail_wait;
          starts = 0;
          waits = 0;
          faults = 0;
          waited = [];
          told = [];
        }) }
    {
        Ok(MemSpawner {
            alloc,
            statuses,
            fail_start,
            fail_wait,
            starts: 0,
            waits: 0,
            faults: 0,
            waited: Vec::new(alloc),
            log: Reserved::new(alloc),
        })
    }

    /// The status that a child ends with.
    fn status_of(&self, child: ChildId) -> i32
        ensures { result ≡ status_at self.now.statuses child.0 }
    {
        match self.statuses.get(child.0 as usize) {
            Some(status) => *status,
            None => 0,
        }
    }
}

/// A copy of these words.
fn copy_words(alloc: Global, words: &[Word]) -> Result<Texts, AllocError>
    ensures { IfOk result (λ copy. copy ≡ words.now) }
{
    let mut copy = Texts::new(alloc);
    copy.extend_from_slice(words)?;
    Ok(copy)
}

/// Adds a child that runs, and gives its number.
fn add_child(waited: &mut Vec<bool>) -> Result<u64, AllocError>
    ensures number { IfOk result (λ child. child ≡ length waited.old.items) }
    ensures ok { OnOk result (waited.new.items ≡ waited.old.items ++ false ∷ []) }
    ensures err { OnErr result (waited.new.items ≡ waited.old.items) }
{
    let child = waited.len() as u64;
    waited.push(false)?;
    Ok(child)
}

/// Keeps the wait for a child that runs, in room that its start took, and says that it was waited
/// for.
fn keep_wait(waited: &mut Vec<bool>, log: &mut Reserved<Kept>, child: u64, status: Option<i32>)
    requires runs { slice_get waited.old.items child ≡ Some false }
    requires room { running waited.old.items ≤ log.old.spare }
    ensures waited { waited.new.items ≡ slice_set waited.old.items child true }
    ensures log { log.new.items ≡ log.old.items ++ Kept.Waited child status ∷ [] }
    ensures room { running waited.new.items ≤ log.new.spare }
{
    waited[child as usize] = true;
    log.post(Kept::Waited(child, status));
}

impl Spawner for MemSpawner {
    ghost told = { λ s. Some s.told };

    ghost faults = { λ s. s.faults };

    ghost is_running = { IsRunning };

    ghost next_child = { λ s. length s.waited };

    /// Gives the next child. It fails exactly where the start is listed, which is then a fault.
    fn start(&mut self, words: &[Word]) -> Result<ChildId, SpawnFail>
        ensures told { TellsMore (Some self.old.told) (Some self.new.told)
            (start_told words.now result) }
        ensures fresh { IfOk result (λ child. (length self.old.waited ≤ child.0)
            × (child.0 < length self.new.waited) × IsRunning self.new child.0) }
        ensures rises { length self.old.waited ≤ length self.new.waited }
        ensures others { (n : ℕ) → IsRunning self.old n → IsRunning self.new n }
        ensures later { self.old.faults ≤ self.new.faults }
        ensures failed { IsErrOf result SpawnFail.Failed → Rose self.old.faults self.new.faults }

        // Unless memory runs out, it fails exactly where it is listed.
        ensures memory { IsErrOf result SpawnFail.Memory → self.new ≡ self.old }
        ensures listed { IsErrOf result SpawnFail.Failed
            → FailsNext self.old.fail_start self.old.starts }
        ensures started { IsOk result → ¬ (FailsNext self.old.fail_start self.old.starts) }

        // One more fault where it fails, and else the next child; nothing else changes but the
        // count of starts and what is told.
        ensures fault { IsErrOf result SpawnFail.Failed → self.new ≡ record self.old {
          starts = next_count self.old.starts;
          faults = next_count self.old.faults;
          told = self.new.told;
        } }
        ensures next { IfOk result (λ child. (child.0 ≡ length self.old.waited)
            × (self.new ≡ record self.old {
              starts = next_count self.old.starts;
              waited = self.old.waited ++ false ∷ [];
              told = self.new.told;
            })) }
    {
        let words = copy_words(self.alloc, words)?;
        self.log.reserve(self.waited.len() + 2)?;
        let starts = self.starts.saturating_add(1);
        if self.fail_start.contains(&starts) {
            self.starts = starts;
            self.faults = self.faults.saturating_add(1);
            self.log.post(Kept::Started(words, None));
            return Err(SpawnFail::Failed);
        }
        let child = add_child(&mut self.waited)?;
        self.starts = starts;
        self.log.post(Kept::Started(words, Some(child)));
        Ok(ChildId(child))
    }

    /// Gives the status of a child. It fails exactly where the wait is listed, which is then a
    /// fault.
    fn ended(&mut self, child: ChildId) -> Result<i32, SpawnFail>
        requires { IsRunning self.old child.0 }
        ensures told { TellsMore (Some self.old.told) (Some self.new.told)
            (wait_told child.0 result ∷ []) }
        ensures others { (n : ℕ) → n ≢ child.0 → IsRunning self.old n → IsRunning self.new n }
        ensures rises { length self.old.waited ≤ length self.new.waited }
        ensures later { self.old.faults ≤ self.new.faults }
        ensures failed { IsErrOf result SpawnFail.Failed → Rose self.old.faults self.new.faults }
        ensures no_memory { ¬ (IsErrOf result SpawnFail.Memory) }

        ensures listed { IsErrOf result SpawnFail.Failed
            ↔ FailsNext self.old.fail_wait self.old.waits }
        ensures status { IfOk result (λ status. status ≡ status_at self.old.statuses child.0) }

        // One more wait, for a child that is waited for now, and one more fault where it fails.
        ensures counted { self.new ≡ record self.old {
          waits = next_count self.old.waits;
          faults = self.new.faults;
          waited = slice_set self.old.waited child.0 true;
          told = self.new.told;
        } }
        ensures fault { FailsNext self.old.fail_wait self.old.waits
            → self.new.faults ≡ next_count self.old.faults }
        ensures no_fault { ¬ (FailsNext self.old.fail_wait self.old.waits)
            → self.new.faults ≡ self.old.faults }
    {
        let waits = self.waits.saturating_add(1);
        let failed = self.fail_wait.contains(&waits);
        let status = self.status_of(child);
        self.waits = waits;
        if failed {
            self.faults = self.faults.saturating_add(1);
            keep_wait(&mut self.waited, &mut self.log, child.0, None);
            return Err(SpawnFail::Failed);
        }
        keep_wait(&mut self.waited, &mut self.log, child.0, Some(status));
        Ok(status)
    }
}
