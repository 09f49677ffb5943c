//! The stack of a node: what a caller sees of it, and each change.
//!
//! Late calls stand in the stack, by rising number, in a map by their numbers, so that an
//! answer finds its call without a walk. A node gives each call a number of its own; a call
//! that is given up under the number of a late one takes its place. A change of the top is made
//! in place but for its writes of slots, which are the store's. The values that it took out
//! come back with what is left to do, so that nothing is counted twice. The top's answer is
//! taken out by a call of its own (`take_answer`), in place of lending the top out. Who takes
//! it sets its values by a `Slots` change, and both say what they add to the uses of each
//! object. An object counts once for each local or answer that names it. An item pushed to a
//! list that names the object already adds nothing, and the clause says so.
mod calls;
mod ends;
mod steps;

ghost use Rattle.std.specs.Prelude.{◌≡◌, ◌+◌, ◌-◌, ◌<◌, ◌≤◌, ◌∷◌, [], length, OnOk, OnErr, IfOk};
ghost use Rattle.std.specs.Prelude.{IfErr, IsOk, MatchOption, Some, None, slice_get, cond, List};
ghost use Rattle.std.specs.{Prelude.{IfSome, false}, Option.option_copied};
ghost use Rattle.do_base.specs.{names.Names.ObjectName, declared.values.value.Value.Value};
ghost use Rattle.do_behave.specs.{Changes.{IsFitting, meaning}, InPlace.after_act};
ghost use Rattle.do_behave.specs.declared.invocation.Invocation.{Invocation};
ghost use Rattle.do_stack.specs.{Waiting.with_top, Exchange.{given, taken, named_again}};
ghost use Rattle.do_stack.specs.Exchange.{slots_after, act_left, taken_by, takes_memory};
ghost use Rattle.do_stack.specs.Uses.{uses, stack_uses, invocation_values};

use crate::late::LateCalls;
use do_behave::{Change, Exchanged, Invocation, exchange};
use std::alloc::{AllocError, Global};
use std::collections::VecDeque;
use std::marker::Model;

/// An invocation that found no memory, handed back.
#[derive(Debug, Drop)]
pub struct PushBack {
    /// The invocation.
    pub inv: Invocation,
}

/// The invocations of a node, 256 at most, and its calls that were given up.
///
/// Contracts see the invocations, the top first, the late calls by rising number, and the room
/// left. Only the top acts, so the invocation that waits for a call is looked for from the top; a
/// late call is found by its number.
#[derive(Drop)]
pub struct Stack {
    invs: VecDeque<Invocation>,
    late: LateCalls,
}

impl Model for Stack {
    ghost use Rattle.do_behave.specs.contracts.invocation.Invocation as one;
    ghost use Rattle.do_machine.specs.contracts.node.LateCall as call;
    ghost use Rattle.std.specs.{Prelude.{◌≤◌, length}, Coded.codes};
    ghost use Rattle.do_stack.specs.Stacked.{Stacked, stacked_of};

    ghost Value = { Stacked };

    ghost coded = { Prim.hlevel (codes, one.the_row.coded, call.the_row.coded) };

    ghost view = { λ s. stacked_of s.invs s.late };

    ghost invariant = { λ s. length s.invs.items ≤ 256 };
}

impl Stack {
    /// An empty stack with no late call, for which no memory is taken.
    pub fn new(alloc: Global) -> Stack
        ensures invocations { result.invocations ≡ [] }
        ensures late { result.late ≡ [] }
    {
        Stack {
            invs: VecDeque::new(alloc),
            late: LateCalls::new(alloc),
        }
    }

    /// Makes room for `more` invocations at least, and for as many late calls.
    ///
    /// If memory runs out, the stack is unchanged.
    pub fn reserve(&mut self, more: u64) -> Result<(), AllocError>
        ensures invocations { self.new.invocations ≡ self.old.invocations }
        ensures late { self.new.late ≡ self.old.late }
        ensures ok { OnOk result (more ≤ self.new.spare) }
        ensures kept { self.old.spare ≤ self.new.spare }
    {
        if more == 0 {
            return Ok(());
        }
        self.invs.reserve(more as usize)?;
        self.late.reserve(more)
    }

    /// How many more invocations and late calls fit with no memory taken, of whichever fewer fit.
    pub fn spare(&self) -> u64
        ensures { result ≡ self.now.spare }
    {
        let invs = self.invs.capacity() - self.invs.len();
        self.late.spare().min(invs as u64)
    }

    /// How many invocations there are, 256 at most.
    pub fn depth(&self) -> usize
        ensures value { result ≡ length self.now.invocations }
        ensures most { result ≤ 256 }
    {
        self.invs.len()
    }

    /// Puts an invocation on top, and hands it back if memory runs out. With room it cannot fail.
    #[tactic(auto, using(crate::proofs::UsesKept::kept_uses))]
    pub fn push(&mut self, inv: Invocation) -> Result<(), PushBack>
        requires { length self.old.invocations < 256 }
        ensures ok { OnOk result (self.new.invocations ≡ inv ∷ self.old.invocations) }
        ensures err { OnErr result (self.new.invocations ≡ self.old.invocations) }
        ensures back { IfErr result (λ e. e.inv ≡ inv) }
        ensures late { self.new.late ≡ self.old.late }
        ensures room { 0 < self.old.spare → IsOk result }
        ensures spare { self.old.spare ≤ self.new.spare + 1 }
        ensures uses { OnOk result ((o : ObjectName) → stack_uses o self.new.invocations
            ≡ stack_uses o self.old.invocations + uses o (invocation_values inv)) }
    {
        match self.invs.push_front(inv) {
            Ok(()) => Ok(()),
            Err(failed) => Err(PushBack { inv: failed.value }),
        }
    }

    /// Takes the top invocation off. None exactly where there is none.
    #[tactic(auto, using(crate::proofs::UsesKept::kept_uses))]
    pub fn pop(&mut self) -> Option<Invocation>
        ensures taken { MatchOption result
            ((self.old.invocations ≡ []) × (self.new.invocations ≡ []))
            (λ top. self.old.invocations ≡ top ∷ self.new.invocations) }
        ensures late { self.new.late ≡ self.old.late }
        ensures spare { self.old.spare ≤ self.new.spare }
        ensures uses { IfSome result (λ top. (o : ObjectName)
            → stack_uses o self.new.invocations + uses o (invocation_values top)
            ≡ stack_uses o self.old.invocations) }
    {
        self.invs.pop_front()
    }

    /// The top invocation. None exactly where there is none.
    pub fn top(&self) -> Option<&Invocation>
        ensures { option_copied result ≡ slice_get self.now.invocations 0 }
    {
        self.invs.get(0)
    }

    /// The k-th invocation from the bottom, counted from 0. None exactly where k is the depth or
    /// more.
    pub fn at(&self, k: usize) -> Option<&Invocation>
        ensures within { k < length self.now.invocations → option_copied result
            ≡ slice_get self.now.invocations (length self.now.invocations - 1 - k) }
        ensures none { length self.now.invocations ≤ k → result ≡ None }
    {
        let depth = self.invs.len();
        if depth <= k {
            return None;
        }
        self.invs.get(depth - 1 - k)
    }

    /// Makes a change of the top invocation, where it is a step, but for its writes of slots. What
    /// it took out of the locals is handed back, and what is left to do.
    ///
    /// If memory runs out, the invocations are unchanged.
    pub fn change(&mut self, change: Change) -> Result<Exchanged, AllocError>
        requires top { 0 < length self.old.invocations }
        requires fits { (top : Invocation) → slice_get self.old.invocations 0 ≡ Some top
            → IsFitting top change }
        ensures invocations { OnOk result (self.new.invocations
            ≡ with_top (λ i. (after_act (meaning i change) i []).inv) self.old.invocations) }
        ensures left { IfOk result (λ e. (top : Invocation) (slots : List Value)
            → slice_get self.old.invocations 0 ≡ Some top
            → (slots_after e.left slots ≡ (after_act (meaning top change) top slots).slots)
            × (act_left e.left ≡ (after_act (meaning top change) top slots).left)) }
        ensures taken { IfOk result (λ e. (top : Invocation)
            → slice_get self.old.invocations 0 ≡ Some top
            → taken e.taken ≡ taken_by top.locals change) }
        ensures sure { takes_memory change ≡ false → IsOk result }
        ensures uses { IfOk result (λ e. (top : Invocation) (o : ObjectName)
            → slice_get self.old.invocations 0 ≡ Some top
            → stack_uses o self.new.invocations + uses o (taken e.taken)
            + cond (named_again o top change) 1 0
            ≡ stack_uses o self.old.invocations + uses o (given change)) }
        ensures late { self.new.late ≡ self.old.late }
        ensures spare { self.new.spare ≡ self.old.spare }
        ensures err { OnErr result (self.new.invocations ≡ self.old.invocations) }
    {
        let done = exchange(&mut self.invs[0], change)?;
        Ok(done)
    }
}
