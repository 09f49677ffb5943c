//! Calls of exports.
//!
//! An entry is written as an object: the peer's port, and the serial of the own object.

use crate::parts::answers::{amount_or_nil, amount_value};
use crate::parts::arguments::{amount_at, node_at};
use call_rows::{Part, call_of, count_at, no_call, object_at, word_with_two};
use do_base::{NodeId, Oid, Value, Values};
use do_export::{Exports, OverRelease};
use do_native_acts::as_number;
use std::alloc::Global;
use std::test::Fail;

/// What a row calls.
#[derive(Clone, Copy)]
enum Call {
    New,
    Reserve,
    HasRoom,
    Len,
    GiveBack,
    Fill,
    DropNext,
    EndPeer,
    Name,
    Count,
    Has,
    Forget,
    NextEntry,
}

/// The words of the calls.
const CALLS: [(&[u8], Call); 13] = [
    (b"new", Call::New),
    (b"reserve", Call::Reserve),
    (b"has_room", Call::HasRoom),
    (b"len", Call::Len),
    (b"give_back", Call::GiveBack),
    (b"fill", Call::Fill),
    (b"drop_next", Call::DropNext),
    (b"end_peer", Call::EndPeer),
    (b"name", Call::Name),
    (b"count", Call::Count),
    (b"has", Call::Has),
    (b"forget", Call::Forget),
    (b"next_entry", Call::NextEntry),
];

/// The counts of the names that peers were sent.
#[derive(Drop)]
pub(crate) struct ExportCalls {
    exports: Exports,
    alloc: Global,
}

/// The refusal of a peer that gives back too much: a word, what it had, and what it gave back.
fn over_release(alloc: Global, over: OverRelease) -> Result<Value, Fail> {
    let had = amount_value(over.had)?;
    let asked = amount_value(over.asked)?;
    word_with_two(alloc, b"over", had, asked)
}

impl ExportCalls {
    /// No entry.
    pub(crate) fn new(alloc: Global) -> ExportCalls {
        ExportCalls {
            exports: Exports::new(alloc),
            alloc,
        }
    }

    /// Begins anew, without entries.
    fn begin(&mut self) -> Value {
        self.exports = Exports::new(self.alloc);
        Value::Nil
    }

    /// Makes room for more entries.
    fn reserve(&mut self, args: &Values) -> Result<Value, Fail> {
        self.exports.reserve(amount_at(args, 0)?)?;
        Ok(Value::Nil)
    }

    /// Whether there is room for more entries.
    fn has_room(&self, args: &Values) -> Result<Value, Fail> {
        let more = amount_at(args, 0)?;
        Ok(as_number(self.exports.spare() >= more))
    }

    /// Counts a name, and tells whether it did: there is room.
    fn count_name(&mut self, peer: NodeId, serial: u64) -> bool {
        if self.exports.spare() == 0 || self.exports.count(peer, serial) == u64::MAX {
            return false;
        }
        self.exports.name(peer, serial);
        true
    }

    /// Counts a name of an entry.
    fn name(&mut self, args: &Values) -> Result<Value, Fail> {
        let Oid { node, serial } = object_at(args, 0)?;
        Ok(as_number(self.count_name(node, serial)))
    }

    /// Counts a name of as many objects, from serial 1 on, and tells of how many.
    fn count_names(&mut self, peer: NodeId, count: u16) -> i64 {
        let mut named: i64 = 0;
        for serial in 1..=u64::from(count) {
            if self.count_name(peer, serial) {
                named = named.saturating_add(1);
            }
        }
        named
    }

    /// Counts a name of as many objects, and tells of how many.
    fn fill(&mut self, args: &Values) -> Result<Value, Fail> {
        let (peer, count) = (node_at(args, 0)?, count_at(args, 1)?);
        Ok(Value::Num(self.count_names(peer, count)))
    }

    /// Takes off what a peer gives back, and tells what is left.
    fn give_back(&mut self, args: &Values) -> Result<Value, Fail> {
        let Oid { node, serial } = object_at(args, 0)?;
        let n = amount_at(args, 1)?;
        if n == 0 {
            return Err(Fail::from("nothing is given back"));
        }
        match self.exports.give_back(node, serial, n) {
            Ok(left) => amount_value(left),
            Err(over) => over_release(self.alloc, over),
        }
    }

    /// How often an entry was named.
    fn count(&self, args: &Values) -> Result<Value, Fail> {
        let Oid { node, serial } = object_at(args, 0)?;
        amount_value(self.exports.count(node, serial))
    }

    /// Whether there is an entry.
    fn has(&self, args: &Values) -> Result<Value, Fail> {
        let Oid { node, serial } = object_at(args, 0)?;
        Ok(as_number(self.exports.has(node, serial)))
    }

    /// Forgets an entry.
    fn forget(&mut self, args: &Values) -> Result<Value, Fail> {
        let Oid { node, serial } = object_at(args, 0)?;
        self.exports.forget(node, serial);
        Ok(Value::Nil)
    }

    /// The serial of the next entry from one on, or nil.
    fn next_entry(&self, args: &Values) -> Result<Value, Fail> {
        let Oid { node, serial } = object_at(args, 0)?;
        amount_or_nil(self.exports.next_entry(node, serial))
    }

    /// Takes out the lowest entry of a peer, and tells its serial, or nil.
    fn drop_next(&mut self, args: &Values) -> Result<Value, Fail> {
        let peer = node_at(args, 0)?;
        amount_or_nil(self.exports.drop_next(peer))
    }

    /// Forgets all entries of a peer.
    fn end_peer(&mut self, args: &Values) -> Result<Value, Fail> {
        let peer = node_at(args, 0)?;
        self.exports.end_peer(peer);
        Ok(Value::Nil)
    }
}

impl Part for ExportCalls {
    fn call(&mut self, word: &[u8], args: &Values) -> Result<Value, Fail> {
        match call_of(&CALLS, word) {
            Some(Call::New) => Ok(self.begin()),
            Some(Call::Reserve) => self.reserve(args),
            Some(Call::HasRoom) => self.has_room(args),
            Some(Call::Len) => amount_value(self.exports.len()),
            Some(Call::GiveBack) => self.give_back(args),
            Some(Call::Fill) => self.fill(args),
            Some(Call::DropNext) => self.drop_next(args),
            Some(Call::EndPeer) => self.end_peer(args),
            Some(Call::Name) => self.name(args),
            Some(Call::Count) => self.count(args),
            Some(Call::Has) => self.has(args),
            Some(Call::Forget) => self.forget(args),
            Some(Call::NextEntry) => self.next_entry(args),
            None => no_call(),
        }
    }
}
