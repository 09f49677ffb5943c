//! Calls of what writes the blocks of a transcript.

mod listed;
mod took;

use crate::blocks::listed::{extend, node_at, push_node};
use crate::blocks::took::took_of;
use call_rows::{Part, call_of, copy_at, object_at, text_at};
use do_base::{Exc, Items, Shown, Text, Value, Values};
use do_class::{ClassTable, Methods, Slot, Slots};
use do_lines::{check_text, line_text};
use do_sched::{Lines, read_schedule};
use do_trace::{Outcome, Snapshot};
use std::alloc::{AllocError, Global};
use std::test::Fail;

/// What a row calls.
#[derive(Clone, Copy)]
enum Call {
    Begin,
    Skip,
    Block,
    Check,
    Took,
    Say,
    Raise,
    Free,
    Node,
}

/// The words of the calls.
const CALLS: [(&[u8], Call); 9] = [
    (b"begin", Call::Begin),
    (b"skip", Call::Skip),
    (b"block", Call::Block),
    (b"check", Call::Check),
    (b"took", Call::Took),
    (b"say", Call::Say),
    (b"raise", Call::Raise),
    (b"free", Call::Free),
    (b"node", Call::Node),
];

/// What a step showed so far, and what a check lists.
#[derive(Drop)]
pub(crate) struct BlockCalls {
    alloc: Global,
    outcome: Outcome,
    table: ClassTable,
    listed: Snapshot,
}

/// A schedule of this line alone.
fn schedule_of(alloc: Global, line: &Text) -> Result<Text, AllocError> {
    let mut schedule = Text::from_slice(alloc, b"schedule 2\n")?;
    schedule.push_bytes(line.as_slice())?;
    schedule.push_bytes(b"\nend\n")?;
    Ok(schedule)
}

/// The block of the first of these lines, which came to this.
fn first_block(alloc: Global, lines: &Lines, outcome: &Outcome) -> Result<Value, Fail> {
    let line = lines.first().ok_or("no line")?;
    Ok(Value::Text(line_text(alloc, line, outcome)?))
}

/// The block of the line of a schedule that came to this.
fn block(alloc: Global, args: &Values, outcome: &Outcome) -> Result<Value, Fail> {
    let schedule = schedule_of(alloc, text_at(args, 0)?)?;
    let lines = read_schedule(alloc, schedule.as_slice())?;
    first_block(alloc, &lines, outcome)
}

/// A slot of a name, which holds what is not copied with its object.
fn slot(alloc: Global, name: &[u8]) -> Result<Slot, AllocError> {
    let name = Text::from_slice(alloc, name)?;
    Ok(Slot { name, copy: false })
}

/// The slots `a` and `b`.
fn pair_slots(alloc: Global) -> Result<Slots, AllocError> {
    let first = slot(alloc, b"a")?;
    let second = slot(alloc, b"b")?;
    Ok(Slots::from_vec(vec![in alloc; first, second]?))
}

/// A table of one class, `Pair`, with the slots `a` and `b`.
fn pair_table(alloc: Global) -> Result<ClassTable, Fail> {
    let slots = pair_slots(alloc)?;
    let mut table = ClassTable::new(alloc);
    let name = Text::from_slice(alloc, b"Pair")?;
    table.add_class(name, slots, Methods::new(alloc))?;
    Ok(table)
}

impl BlockCalls {
    /// Nothing was shown, and nothing is listed.
    pub(crate) fn new(alloc: Global) -> Result<BlockCalls, Fail> {
        let table = pair_table(alloc)?;
        let shown = Items::new(alloc);
        let nodes = Items::new(alloc);
        Ok(BlockCalls {
            alloc,
            outcome: Outcome {
                enabled: true,
                shown,
            },
            table,
            listed: Snapshot { nodes },
        })
    }

    /// Begins a step that shows nothing yet, which is enabled or is not.
    fn begin(&mut self, enabled: bool) -> Value {
        self.outcome.enabled = enabled;
        self.outcome.shown = Items::new(self.alloc);
        Value::Nil
    }

    /// The lines of a check.
    fn check(&self) -> Result<Value, Fail> {
        let text = check_text(self.alloc, &self.table, &self.listed)?;
        Ok(Value::Text(text))
    }

    /// Shows something more.
    fn show(&mut self, shown: Shown) -> Result<Value, Fail> {
        self.outcome.shown.push(shown)?;
        Ok(Value::Nil)
    }

    /// Shows that an item was taken.
    fn took(&mut self, args: &Values) -> Result<Value, Fail> {
        let took = took_of(args)?;
        self.show(Shown::Took(took))
    }

    /// Shows that a value was said.
    fn say(&mut self, args: &Values) -> Result<Value, Fail> {
        let value = copy_at(args, 0)?;
        self.show(Shown::Say(value))
    }

    /// Shows that an object was freed.
    fn free(&mut self, args: &Values) -> Result<Value, Fail> {
        let oid = object_at(args, 0)?;
        self.show(Shown::Free(oid))
    }

    /// Lists one more node.
    fn node(&mut self, args: &Values) -> Result<Value, Fail> {
        push_node(&mut self.listed, self.alloc, node_at(args, 0)?)?;
        Ok(Value::Nil)
    }

    /// Lists something of the last node.
    fn extend(&mut self, word: &[u8], args: &Values) -> Result<Value, Fail> {
        let line = self.listed.nodes.last_mut().ok_or("no node")?;
        extend(line, word, args)?;
        Ok(Value::Nil)
    }
}

impl Part for BlockCalls {
    fn call(&mut self, word: &[u8], args: &Values) -> Result<Value, Fail> {
        match call_of(&CALLS, word) {
            Some(Call::Begin) => Ok(self.begin(true)),
            Some(Call::Skip) => Ok(self.begin(false)),
            Some(Call::Block) => block(self.alloc, args, &self.outcome),
            Some(Call::Check) => self.check(),
            Some(Call::Took) => self.took(args),
            Some(Call::Say) => self.say(args),
            Some(Call::Raise) => self.show(Shown::Raise(Exc::TypeFault)),
            Some(Call::Free) => self.free(args),
            Some(Call::Node) => self.node(args),
            None => self.extend(word, args),
        }
    }
}
