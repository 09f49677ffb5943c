//! Calls that were given up, and whose answers may still come.
ghost use Rattle.std.specs.Prelude.{◌≡◌, ◌<◌, ◌==◌, ◌≤◌, ◌+◌, OnOk, OnErr, IsOk, not, filter, []};
ghost use Rattle.std.specs.List.{list_any};
ghost use Rattle.do_machine.specs.take.Awaiting.{is_answered, is_for_root, late_answered};
ghost use Rattle.do_stack.specs.LateCalls.{kept};

use do_base::NodeId;
use do_behave::Waited;
use do_machine::LateCall;
use do_sorted::Sorted;
use std::alloc::{AllocError, Global};
use std::marker::Model;

/// The late calls of a node, by their numbers.
///
/// Contracts see them by rising number, and the room left. A call is found by its number in steps
/// as the logarithm of how many there are.
#[derive(Debug, Drop)]
pub struct LateCalls {
    rows: Sorted<u64, (NodeId, Waited)>,
}

impl Model for LateCalls {
    ghost use Rattle.do_machine.specs.contracts.node.LateCall as call;
    ghost use Rattle.std.specs.{Prelude.{T, map}, Coded.codes, Ordering.nat_cmp, FinMap.is_sorted};
    ghost use Rattle.do_stack.specs.LateCalls.{Kept, call_of};

    ghost Value = { Kept };

    ghost coded = { Prim.hlevel (codes, call.the_row.coded) };

    ghost view = { λ l. record { calls = map call_of l.rows.rows; spare = l.rows.spare } };

    ghost invariant = { λ l. T (is_sorted nat_cmp l.rows.rows) };
}

/// Whether a root was asked for, and no method.
fn is_for_root(what: Waited) -> bool
    ensures { result ≡ is_for_root what }
{
    matches!(&what, Waited::Root)
}

impl LateCalls {
    /// No late call, for which no memory is taken.
    pub fn new(alloc: Global) -> LateCalls
        ensures { result ≡ record { calls = []; spare = 0 } }
    {
        LateCalls {
            rows: Sorted::new(alloc),
        }
    }

    /// Makes room for `more` late calls at least.
    ///
    /// If memory runs out, there are as many as before, with the same room.
    pub fn reserve(&mut self, more: u64) -> Result<(), AllocError>
        ensures calls { self.new.calls ≡ self.old.calls }
        ensures ok { OnOk result (more ≤ self.new.spare) }
        ensures kept { self.old.spare ≤ self.new.spare }
    {
        self.rows.reserve(more as usize)
    }

    /// How many more late calls fit with no memory taken.
    pub fn spare(&self) -> u64
        ensures { result ≡ self.now.spare }
    {
        self.rows.spare() as u64
    }

    /// Keeps a late call, in place of any other of its number. With room it cannot fail.
    pub fn keep(&mut self, call: LateCall) -> Result<(), AllocError>
        ensures ok { OnOk result (self.new.calls ≡ kept call self.old.calls) }
        ensures err { OnErr result (self.new.calls ≡ self.old.calls) }
        ensures room { 0 < self.old.spare → IsOk result }
        ensures spare { self.old.spare ≤ self.new.spare + 1 }
    {
        if self.rows.spare() == 0 {
            self.rows.reserve(1)?;
        }
        self.put(call);
        Ok(())
    }

    /// Keeps a late call, in place of any other of its number, in room that was made before.
    fn put(&mut self, call: LateCall)
        requires { 0 < self.old.spare }
        ensures calls { self.new.calls ≡ kept call self.old.calls }
        ensures spare { self.old.spare ≤ self.new.spare + 1 }
    {
        self.rows.put(call.number, (call.peer, call.what));
    }

    /// Whether an answer of a peer is to a late call.
    pub(crate) fn has(&self, peer: NodeId, number: u64, root: bool) -> bool
        ensures { result ≡ list_any
            (λ c. is_answered (record { peer = peer; number = number; root = root })
            c.peer c.number c.what) self.now.calls }
    {
        let Some(&(from, what)) = self.rows.get(&number) else {
            return false;
        };
        from == peer && is_for_root(what) == root
    }

    /// Ends the late call to which an answer of a peer is. False exactly where no such call is
    /// late, and then nothing changes.
    pub fn end(&mut self, peer: NodeId, number: u64, root: bool) -> bool
        ensures which { result ≡ list_any
            (λ c. is_answered (record { peer = peer; number = number; root = root })
            c.peer c.number c.what) self.old.calls }
        ensures calls { self.new.calls
            ≡ late_answered (record { peer = peer; number = number; root = root })
            self.old.calls }
        ensures spare { self.old.spare ≤ self.new.spare }
    {
        let there = self.has(peer, number, root);
        if there {
            self.rows.remove(&number);
        }
        there
    }

    /// Forgets the late calls to a peer.
    pub fn forget(&mut self, peer: NodeId)
        ensures calls { self.new.calls ≡ filter (λ c. not (c.peer == peer)) self.old.calls }
        ensures spare { self.old.spare ≤ self.new.spare }
    {
        self.rows.retain(|row| row.1.0 != peer);
    }
}
