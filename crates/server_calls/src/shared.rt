//! Calls that the acts of all servers share.
ghost use Rattle.do_behave.specs.Changes.{IsFitting};

use crate::bench::Bench;
use call_rows::{
    Part, call_of, copy_at, count_at, count_value, list_at, local_at, no_call, number_or_nil,
    pair_value, text_at, value_at,
};
use do_base::{Items, Oid, Text, Value, Values, copy_value};
use do_behave::{Change, Handler, LocalSet, LocalSets, Write, Writes, make_change};
use do_native_acts::{
    Row, answer, answered, as_number, changes, is_limited, local_number, local_text, port_in,
    read_rows, selector_in, send, show_rows, step,
};
use std::alloc::{AllocError, Global};
use std::test::Fail;

/// What a row calls.
#[derive(Clone, Copy)]
enum Call {
    Step,
    Answered,
    Answer,
    Send,
    Selector,
    FirstText,
    FirstNumber,
    Changes,
    Of,
}

/// The words of the calls.
const CALLS: [(&[u8], Call); 9] = [
    (b"step", Call::Step),
    (b"answered", Call::Answered),
    (b"answer", Call::Answer),
    (b"send", Call::Send),
    (b"selector", Call::Selector),
    (b"first_text", Call::FirstText),
    (b"first_number", Call::FirstNumber),
    (b"changes", Call::Changes),
    (b"of", Call::Of),
];

/// What is told of a value by itself.
#[derive(Clone, Copy)]
enum Question {
    IsLimited,
    Port,
    Texts,
    Objects,
}

/// The words of these questions.
const QUESTIONS: [(&[u8], Question); 4] = [
    (b"is_limited", Question::IsLimited),
    (b"port", Question::Port),
    (b"texts", Question::Texts),
    (b"objects", Question::Objects),
];

/// An invocation and slots on which steps are made.
#[derive(Drop)]
pub(crate) struct SharedCalls {
    bench: Bench,
}

/// Adds writes, each its slot and its value.
fn push_writes(values: &mut Values, writes: &Writes) -> Result<(), Fail> {
    for write in writes.as_slice() {
        values.push(count_value(write.slot)?)?;
        values.push(copy_value(&write.value)?)?;
    }
    Ok(())
}

/// Writes as a list of slots and values.
fn writes_value(alloc: Global, writes: &Writes) -> Result<Value, Fail> {
    let mut values = Values::new(alloc);
    push_writes(&mut values, writes)?;
    Ok(Value::List(values))
}

/// Rows, shown again, behind how many they are.
fn shown_rows<T: Row>(alloc: Global, rows: &Items<T>) -> Result<Value, Fail> {
    let count = count_value(rows.len())?;
    let rows = show_rows(rows)?;
    pair_value(alloc, count, rows)
}

/// Rows that a slot holds, shown again, behind how many they are; nil where it holds none.
fn rows_value<T: Row>(alloc: Global, slot: &Value) -> Result<Value, Fail> {
    match read_rows::<T>(alloc, slot)? {
        Some(rows) => shown_rows(alloc, &rows),
        None => Ok(Value::Nil),
    }
}

/// A value for a local.
fn one_set(alloc: Global, local: u8, value: Value) -> Result<LocalSets, AllocError> {
    Ok(LocalSets::from_vec(vec![in alloc; LocalSet { local, value }]?))
}

/// A value for a slot.
fn one_write(alloc: Global, slot: usize, value: Value) -> Result<Writes, AllocError> {
    Ok(Writes::from_vec(vec![in alloc; Write { slot, value }]?))
}

impl SharedCalls {
    /// An invocation of a method without arguments, of an object without slots.
    pub(crate) fn new(alloc: Global) -> Result<SharedCalls, Fail> {
        let bench = Bench::new(alloc)?;
        Ok(SharedCalls { bench })
    }

    /// Makes a change of the invocation and its slots.
    fn change(&mut self, change: Change) -> Result<Value, Fail>
        requires { IsFitting self.old.bench.inv change }
    {
        let bench = &mut self.bench;
        let act = make_change(&mut bench.inv, &mut bench.slots, change)?;
        bench.shown(act)
    }

    /// Steps to a place, with a value for local 3 and one for a slot, and handles what is raised at
    /// place 7 with local 15.
    fn step(&mut self, args: &Values) -> Result<Value, Fail> {
        let alloc = self.bench.alloc;
        let to = u32::from(count_at(args, 0)?);
        let slot = usize::from(count_at(args, 2)?);
        let handler = Some(Handler { into: 15, pc: 7 });
        let sets = one_set(alloc, 3, copy_at(args, 1)?)?;
        let writes = one_write(alloc, slot, copy_at(args, 3)?)?;
        let change = step(&self.bench.inv, to, sets, handler, writes);
        self.change(change)
    }

    /// Keeps an answer, and writes the slots that are others.
    fn answered(&mut self, args: &Values) -> Result<Value, Fail> {
        let writes = changes(&self.bench.slots, list_at(args, 1)?)?;
        let answer = copy_at(args, 0)?;
        let change = answered(&self.bench.inv, answer, writes)?;
        self.change(change)
    }

    /// Ends with the answer that was kept.
    fn answer(&mut self) -> Result<Value, Fail> {
        let change = answer(&self.bench.inv)?;
        self.change(change)
    }

    /// Sends a message to what a local holds.
    fn send(&mut self, args: &Values) -> Result<Value, Fail> {
        let target = local_at(args, 0)?;
        let selector = text_at(args, 1)?.as_slice();
        let to = u32::from(count_at(args, 3)?);
        let arguments = list_at(args, 2)?.clone()?;
        let change = send(&self.bench.inv, target, selector, arguments, to)?;
        self.change(change)
    }

    /// The selector of the method, or nil.
    fn selector(&self) -> Result<Value, Fail> {
        match selector_in(&self.bench.table, &self.bench.inv) {
            Some(selector) => Ok(Value::Text(selector.clone()?)),
            None => Ok(Value::Nil),
        }
    }

    /// The text of a local, or nil.
    fn text(&self, local: u8) -> Result<Value, Fail> {
        match local_text(&self.bench.inv, local) {
            Some(text) => Ok(Value::Text(text.clone()?)),
            None => Ok(Value::Nil),
        }
    }
}

/// What is told of a value by itself.
fn told(alloc: Global, args: &Values) -> Result<Value, Fail> {
    let word = text_at(args, 0)?;
    let value = value_at(args, 1)?;
    match call_of(&QUESTIONS, word.as_slice()) {
        Some(Question::IsLimited) => Ok(as_number(is_limited(value))),
        Some(Question::Port) => Ok(number_or_nil(port_in(value).map(i64::from))),
        Some(Question::Texts) => rows_value::<Text>(alloc, value),
        Some(Question::Objects) => rows_value::<Oid>(alloc, value),
        None => no_call(),
    }
}

/// The writes that turn slots into others.
fn changes_value(alloc: Global, args: &Values) -> Result<Value, Fail> {
    let writes = changes(list_at(args, 0)?, list_at(args, 1)?)?;
    writes_value(alloc, &writes)
}

impl Part for SharedCalls {
    fn call(&mut self, word: &[u8], args: &Values) -> Result<Value, Fail> {
        match call_of(&CALLS, word) {
            Some(Call::Step) => self.step(args),
            Some(Call::Answered) => self.answered(args),
            Some(Call::Answer) => self.answer(),
            Some(Call::Send) => self.send(args),
            Some(Call::Selector) => self.selector(),
            Some(Call::FirstText) => self.text(0),
            Some(Call::FirstNumber) => Ok(number_or_nil(local_number(&self.bench.inv, 0))),
            Some(Call::Changes) => changes_value(self.bench.alloc, args),
            Some(Call::Of) => told(self.bench.alloc, args),
            None => self.bench.call(word, args),
        }
    }
}
