//! Finding pairs in a log.
ghost use Rattle.std.specs.Prelude.{◌≡◌, ◌≤◌, ◌<◌, ◌↔◌, ◌++◌, ◌∷◌, [], ◌+◌, None, IsTrue, ℕ};
ghost use Rattle.std.specs.Prelude.{length, drop, take, get_or, OnOk, OnErr, Some};
ghost use Rattle.std.specs.BTreeMap.{Updates, IsUnchanged, get};
ghost use Rattle.do_coder.specs.Recent.{pair as pair_of, place_in, AllDiffer};
ghost use Rattle.do_coder.specs.NameLog.{pair_cmp, AreFound, StandsAt};

use crate::recent::pair::Pair;
use do_base::Items;
use std::alloc::AllocError;
use std::collections::BTreeMap;

/// Two places of a pair in a log, of which one is right.
#[derive(Clone, Copy, Debug)]
pub struct Places {
    pub kept: usize,
    pub now: usize,
}

/// Whether a pair stands at a place, not before another.
#[tactic(auto, using(crate::proofs::tables::IndexLaws::standing))]
fn stands(log: &[Pair], start: usize, at: usize, pair: &Pair) -> bool
    ensures { IsTrue result ↔ StandsAt log.now start at pair.now }
{
    if at < start {
        return false;
    }
    if at >= log.len() {
        return false;
    }
    let there = log[at];
    there.serial == pair.serial && there.class.0 == pair.class.0
}

/// The place of a pair, counted from where the table begins in the log.
#[tactic(auto, using(crate::proofs::tables::IndexLaws::finding))]
pub fn find(
    log: &[Pair],
    start: usize,
    index: &BTreeMap<Pair, Places>,
    pair: &Pair,
) -> Option<usize>
    requires begins { start ≤ length log.now }
    requires differ { AllDiffer (drop start log.now) }
    requires found { AreFound log.now index.now start (length log.now) }
    ensures { result ≡ place_in pair.now (drop start log.now) }
{
    match index.get(pair) {
        None => None,
        Some(places) => {
            if stands(log, start, places.now, pair) {
                return Some(places.now - start);
            }
            if stands(log, start, places.kept, pair) {
                Some(places.kept - start)
            } else {
                None
            }
        }
    }
}

/// The place of a pair in what was kept, if it stands there.
fn kept_spot(
    log: &[Pair],
    from: usize,
    to: usize,
    index: &BTreeMap<Pair, Places>,
    pair: &Pair,
) -> usize
    requires within { to ≤ length log.now }
    requires differ { AllDiffer (drop from (take to log.now)) }
    requires found { AreFound log.now index.now from to }
    ensures { (k : ℕ) → from ≤ k → k < to → get_or log.now k (pair_of 0 0) ≡ pair.now → result ≡ k }
{
    match index.get(pair) {
        None => log.len(),
        Some(places) => {
            if stands(&log[..to], from, places.now, pair) {
                places.now
            } else {
                places.kept
            }
        }
    }
}

/// Notes a pair that comes to the end of the log. Where memory ran out each pair is found as
/// before.
fn note(
    log: &[Pair],
    start: usize,
    kept_start: usize,
    kept_end: usize,
    index: &mut BTreeMap<Pair, Places>,
    pair: Pair,
) -> Result<(), AllocError>
    requires within { kept_end ≤ length log.now }
    requires differ { AllDiffer (drop start log.now) }
    requires kept_differ { AllDiffer (drop kept_start (take kept_end log.now)) }
    requires new { place_in pair (drop start log.now) ≡ None }
    requires found { AreFound log.now index.old start (length log.now) }
    requires kept_found { AreFound log.now index.old kept_start kept_end }
    ensures ok { OnOk result
        (AreFound (log.now ++ pair ∷ []) index.new start (length log.now + 1)) }
    ensures kept { OnOk result (AreFound (log.now ++ pair ∷ []) index.new kept_start kept_end) }
    ensures err { OnErr result (AreFound log.now index.new start (length log.now)) }
    ensures err_kept { OnErr result (AreFound log.now index.new kept_start kept_end) }
{
    let kept = kept_spot(log, kept_start, kept_end, index, &pair);
    let now = log.len();
    match index.insert(pair, Places { kept, now }) {
        Ok(_) => Ok(()),
        Err(_) => Err(AllocError),
    }
}

/// Adds a pair to the end of the log, where it is found. If memory runs out the log is unchanged.
pub fn append(
    log: &mut Items<Pair>,
    start: usize,
    kept_start: usize,
    kept_end: usize,
    index: &mut BTreeMap<Pair, Places>,
    pair: Pair,
) -> Result<(), AllocError>
    requires within { kept_end ≤ length log.old }
    requires differ { AllDiffer (drop start log.old) }
    requires kept_differ { AllDiffer (drop kept_start (take kept_end log.old)) }
    requires new { place_in pair (drop start log.old) ≡ None }
    requires found { AreFound log.old index.old start (length log.old) }
    requires kept_found { AreFound log.old index.old kept_start kept_end }
    ensures ok { OnOk result (log.new ≡ log.old ++ pair ∷ []) }
    ensures err { OnErr result (log.new ≡ log.old) }
    ensures found { AreFound log.new index.new start (length log.new) }
    ensures kept_found { AreFound log.new index.new kept_start kept_end }
{
    note(log.as_slice(), start, kept_start, kept_end, index, pair)?;
    match log.push(pair) {
        Ok(()) => Ok(()),
        Err(e) => Err(e),
    }
}
