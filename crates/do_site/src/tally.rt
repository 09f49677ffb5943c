//! How many objects values name, each own one of them being there.
ghost use Rattle.std.specs.Prelude.{◌≡◌, IfSome};
ghost use Rattle.do_part.specs.Names.{size_of, sizes_of, value_of, values_of};
ghost use Rattle.do_machine.specs.held.Refers.{answer_values, state_values};
ghost use Rattle.do_stack.specs.Uses.{invocation_values};
ghost use Rattle.do_part.specs.Changed.{change_writes, set_values, written_values};
ghost use Rattle.do_part.specs.Filled.{made_values};
ghost use Rattle.do_stack.specs.Exchange.{given};
ghost use Rattle.do_site.specs.Stored.{Tallies, TalliesBoth, is_there, top_answered};

use do_base::{Oid, Value};
use do_behave::{Act, Answer, Change, Frame, InvState, Invocation, LocalSet, Writes};
use do_packet::Made;
use do_part::Part;

/// What a value may name: the own objects that a node stores, and so many that it will store next.
#[derive(Clone, Copy)]
pub struct Reach<'a> {
    /// What the node has of its own.
    pub part: &'a Part,
    /// How many objects will be stored next.
    pub more: u64,
}

impl<'a> Reach<'a> {
    /// Whether an own object is there.
    fn has(self, serial: u64) -> bool
        ensures { result ≡ is_there self.entry.part.now.own.node self.entry.more serial }
    {
        if self.part.object(serial).is_some() {
            return true;
        }
        let next = self.part.next_serial();
        next <= serial && serial - next < self.more
    }

    /// Counts an object. None where it is an own one that is not there.
    fn of_object(self, oid: Oid) -> Option<u64>
        ensures { IfSome result (λ k.
            Tallies self.entry.part.now.own.node self.entry.more (value_of (Value.Obj oid)) 1 k) }
    {
        let home = oid.node;
        if home == self.part.port() && !self.has(oid.serial) {
            return None;
        }
        Some(1)
    }

    /// Counts the objects that a value names. None where it names an own one that is not there.
    #[cycle(tally)]
    pub(crate) fn of_value(self, value: &Value) -> Option<u64>
        ensures { IfSome result (λ k. Tallies self.entry.part.now.own.node self.entry.more
            (value_of value.now) (size_of value.now) k) }
    {
        match value {
            Value::Obj(oid) => self.of_object(*oid),
            Value::List(values) => self.of_values(values.as_slice()),
            Value::Nil | Value::Num(_) | Value::Text(_) => Some(0),
        }
    }

    /// Counts the objects that values name. None where they name an own one that is not there.
    #[cycle(tally)]
    pub(crate) fn of_values(self, values: &[Value]) -> Option<u64>
        ensures { IfSome result (λ k. Tallies self.entry.part.now.own.node self.entry.more
            (values_of values.now) (sizes_of values.now) k) }
    {
        let mut names: u64 = 0;
        for value in values {
            names = names.checked_add(self.of_value(value)?)?;
        }
        Some(names)
    }

    /// The same of locals.
    fn of_locals(self, locals: &Frame) -> Option<u64>
        ensures { IfSome result (λ k. Tallies self.entry.part.now.own.node self.entry.more
            (values_of locals.now) (sizes_of locals.now) k) }
    {
        let mut names: u64 = 0;
        for local in locals.as_slice() {
            names = names.checked_add(self.of_value(local.value())?)?;
        }
        Some(names)
    }

    /// The same of the objects that come in a message, in their slots.
    pub(crate) fn of_copies(self, copies: &[Made]) -> Option<u64>
        ensures { IfSome result (λ k. Tallies self.entry.part.now.own.node self.entry.more
            (values_of (made_values copies.now)) (sizes_of (made_values copies.now)) k) }
    {
        let mut names: u64 = 0;
        for made in copies {
            names = names.checked_add(self.of_values(made.slots.as_slice())?)?;
        }
        Some(names)
    }

    /// The same of an answer.
    pub(crate) fn of_answer(self, answer: &Answer) -> Option<u64>
        ensures { IfSome result (λ k. Tallies self.entry.part.now.own.node self.entry.more
            (values_of (answer_values answer.now)) (sizes_of (answer_values answer.now)) k) }
    {
        match answer {
            Answer::Given { result, outs } => {
                let names = self.of_value(result)?;
                names.checked_add(self.of_values(outs.as_slice())?)
            }
            Answer::Raised(_) => Some(0),
        }
    }

    /// The same of what an invocation waits for or got.
    fn of_state(self, state: &InvState) -> Option<u64>
        ensures { IfSome result (λ k. Tallies self.entry.part.now.own.node self.entry.more
            (values_of (state_values state.now)) (sizes_of (state_values state.now)) k) }
    {
        match state {
            InvState::Answered(answer) => self.of_answer(answer),
            InvState::Running | InvState::Below | InvState::Waits { .. } => Some(0),
        }
    }

    /// The same of an invocation, with its own object.
    pub(crate) fn of_invocation(self, invocation: &Invocation) -> Option<u64>
        ensures { IfSome result (λ k. Tallies self.entry.part.now.own.node self.entry.more
            (values_of (invocation_values invocation.now))
            (sizes_of (invocation_values invocation.now)) k) }
    {
        let own = self.of_object(invocation.object)?;
        let locals = own.checked_add(self.of_locals(&invocation.locals)?)?;
        let names = locals.checked_add(self.of_state(&invocation.state)?)?;
        Some(names)
    }

    /// The same of the values that writes put into slots.
    fn of_writes(self, writes: &Writes) -> Option<u64>
        ensures { IfSome result (λ k. Tallies self.entry.part.now.own.node self.entry.more
            (values_of (written_values writes.now)) (sizes_of (written_values writes.now)) k) }
    {
        let mut names: u64 = 0;
        for write in writes.as_slice() {
            names = names.checked_add(self.of_value(&write.value)?)?;
        }
        Some(names)
    }

    /// The same of the values that sets put into locals.
    fn of_sets(self, sets: &[LocalSet]) -> Option<u64>
        ensures { IfSome result (λ k. Tallies self.entry.part.now.own.node self.entry.more
            (values_of (set_values sets.now)) (sizes_of (set_values sets.now)) k) }
    {
        let mut names: u64 = 0;
        for set in sets {
            names = names.checked_add(self.of_value(&set.value)?)?;
        }
        Some(names)
    }

    /// The same of what a change puts into locals and into slots.
    pub(crate) fn of_change(self, change: &Change) -> Option<u64>
        ensures { IfSome result (λ k. TalliesBoth self.entry.part.now.own.node self.entry.more
            (given change.now) (written_values (change_writes change.now)) k) }
    {
        match change {
            Change::Local { value, .. } => self.of_value(value),
            Change::Push { item, .. } => self.of_value(item),
            Change::Goto { .. } => Some(0),
            Change::Slot { value, .. } => self.of_value(value),
            Change::Slots { sets, writes, .. } => {
                let names = self.of_sets(sets.as_slice())?;
                names.checked_add(self.of_writes(writes)?)
            }
            Change::Handler { .. } => Some(0),
            Change::Other(Act::Step { locals, writes, .. }) => {
                let names = self.of_locals(locals)?;
                names.checked_add(self.of_writes(writes)?)
            }
            Change::Other(_) => Some(0),
        }
    }

    /// The same of the answer that the top invocation got.
    pub(crate) fn of_top(self) -> Option<u64>
        ensures { IfSome result (λ k. Tallies self.entry.part.now.own.node self.entry.more
            (values_of (top_answered self.entry.part.now.own.node.stack))
            (sizes_of (top_answered self.entry.part.now.own.node.stack)) k) }
    {
        match self.part.top() {
            Some(top) => self.of_state(&top.state),
            None => Some(0),
        }
    }
}
