//! Worlds that are read from texts, and those that are built in.

use crate::worlds::classes::tell;
use crate::worlds::faults::fault_value;
use crate::worlds::texts::framed;
use call_rows::{Part, call_of, text_at, text_value};
use do_base::{Text, Value, Values};
use do_document::Classes;
use do_machine::Seats;
use do_native_acts::as_number;
use do_world::{World, builtin, counter, read_world};
use std::alloc::{AllocError, Global};
use std::test::Fail;

/// The bytes that stand in the place of another, one after the other.
const BYTES: [u8; 4] = [b'a', b'"', b'\n', 0xff];

/// What is kept of a world: its classes, its nodes, and how it is printed.
#[derive(Drop)]
struct Kept {
    classes: Classes,
    nodes: Seats,
    printed: Text,
}

/// What a row calls.
#[derive(Clone, Copy)]
enum Call {
    Around,
    Read,
    CountRead,
    BuiltIn,
    IsCounter,
    Nodes,
}

/// The words of the calls.
const CALLS: [(&[u8], Call); 6] = [
    (b"around", Call::Around),
    (b"read", Call::Read),
    (b"count_read", Call::CountRead),
    (b"built_in", Call::BuiltIn),
    (b"is_counter", Call::IsCounter),
    (b"nodes", Call::Nodes),
];

/// The last world, and what stands around texts.
#[derive(Drop)]
pub(crate) struct WorldCalls {
    frame: Values,
    kept: Kept,
    alloc: Global,
}

/// A world as it is printed.
fn printed(alloc: Global, world: &World) -> Result<Text, Fail> {
    let printed = format!(in alloc; "{world:?}")?;
    Ok(Text::from_slice(alloc, printed.as_bytes())?)
}

/// Whether a text with another byte at a place is a world's.
fn reads_changed(alloc: Global, text: &Text, at: usize, byte: u8) -> Result<bool, AllocError> {
    let mut bytes = Vec::from_slice(alloc, text.as_slice())?;
    if let Some(place) = bytes.get_mut(at) {
        *place = byte;
    }
    Ok(read_world(alloc, bytes.as_slice()).is_ok())
}

/// How many changes at a place leave a text that is a world's.
fn count_read(alloc: Global, text: &Text, at: usize) -> Result<i64, AllocError> {
    let mut count: i64 = 0;
    for byte in BYTES {
        if reads_changed(alloc, text, at, byte)? {
            count = count.saturating_add(1);
        }
    }
    Ok(count)
}

/// How many changes of one byte leave a text that is a world's.
fn count_all_read(alloc: Global, text: &Text) -> Result<Value, AllocError> {
    let mut count: i64 = 0;
    for at in 0..text.len() {
        count = count.saturating_add(count_read(alloc, text, at)?);
    }
    Ok(Value::Num(count))
}

/// Adds the ports of nodes, each with the class of its root.
fn push_nodes(values: &mut Values, nodes: &Seats) -> Result<(), AllocError> {
    for seat in nodes.as_slice() {
        values.push(Value::Num(i64::from(seat.node.port())))?;
        values.push(Value::Num(i64::from(seat.root.0)))?;
    }
    Ok(())
}

/// The ports of nodes, each with the class of its root.
fn nodes_value(alloc: Global, nodes: &Seats) -> Result<Value, AllocError> {
    let mut values = Values::new(alloc);
    push_nodes(&mut values, nodes)?;
    Ok(Value::List(values))
}

/// The world `:counter` as it is printed.
fn printed_counter(alloc: Global) -> Result<Text, Fail> {
    let world = counter(alloc)?;
    printed(alloc, &world)
}

/// What is kept of a world.
fn kept_of(alloc: Global, world: World) -> Result<Kept, Fail> {
    let printed = printed(alloc, &world)?;
    let World {
        table,
        kinds,
        rules,
        nodes,
        ..
    } = world;
    let classes = Classes {
        table,
        kinds,
        rules,
    };
    Ok(Kept {
        classes,
        nodes,
        printed,
    })
}

impl WorldCalls {
    /// The world `:counter`, and nothing around texts.
    pub(crate) fn new(alloc: Global) -> Result<WorldCalls, Fail> {
        let kept = kept_of(alloc, counter(alloc)?)?;
        Ok(WorldCalls {
            frame: Values::new(alloc),
            kept,
            alloc,
        })
    }

    /// The text of these pieces, with what stands around them.
    fn framed(&self, pieces: &Values) -> Result<Text, Fail> {
        framed(&self.frame, pieces)
    }

    /// Keeps a world.
    fn keep(&mut self, world: World) -> Result<(), Fail> {
        self.kept = kept_of(self.alloc, world)?;
        Ok(())
    }

    /// Keeps what stands around texts.
    fn set_frame(&mut self, pieces: &Values) -> Result<Value, Fail> {
        self.frame = pieces.clone()?;
        Ok(Value::Nil)
    }

    /// Reads the text of these pieces, and keeps the world that it says.
    fn read(&mut self, pieces: &Values) -> Result<Value, Fail> {
        let text = self.framed(pieces)?;
        match read_world(self.alloc, text.as_slice()) {
            Ok(world) => {
                self.keep(world)?;
                text_value(self.alloc, b"read")
            }
            Err(fault) => fault_value(self.alloc, &fault),
        }
    }

    /// How many changes of one byte leave the text of these pieces a world's.
    fn count_read(&self, pieces: &Values) -> Result<Value, Fail> {
        let text = self.framed(pieces)?;
        Ok(count_all_read(self.alloc, &text)?)
    }

    /// Keeps the built-in world of a name, and tells whether there is one.
    fn built_in(&mut self, args: &Values) -> Result<Value, Fail> {
        let Some(world) = builtin(self.alloc, text_at(args, 0)?)? else {
            return Ok(as_number(false));
        };
        self.keep(world)?;
        Ok(as_number(true))
    }

    /// Whether the world that is kept is printed as `:counter` is.
    fn is_counter(&self) -> Result<Value, Fail> {
        let counter = printed_counter(self.alloc)?;
        Ok(as_number(self.kept.printed == counter))
    }
}

impl Part for WorldCalls {
    fn call(&mut self, word: &[u8], args: &Values) -> Result<Value, Fail> {
        match call_of(&CALLS, word) {
            Some(Call::Around) => self.set_frame(args),
            Some(Call::Read) => self.read(args),
            Some(Call::CountRead) => self.count_read(args),
            Some(Call::BuiltIn) => self.built_in(args),
            Some(Call::IsCounter) => self.is_counter(),
            Some(Call::Nodes) => Ok(nodes_value(self.alloc, &self.kept.nodes)?),
            None => tell(self.alloc, &self.kept.classes, word, args),
        }
    }
}
