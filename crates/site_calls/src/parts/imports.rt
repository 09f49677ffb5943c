//! Calls of imports.

mod counts;
mod tokens;

use crate::parts::answers::{amount_value, ask_value, class_or_nil, left_value};
use crate::parts::arguments::{amount_at, class_at, node_at};
use crate::parts::imports::counts::{got, refer, unrefer};
use crate::parts::imports::tokens::{ask, gone, granted, lend, settle};
use call_rows::{Part, call_of, count_at, no_call, object_at};
use do_base::{NodeId, Oid, Value, Values};
use do_class::ClassId;
use do_import::Imports;
use do_native_acts::{as_number, show_list};
use std::alloc::Global;
use std::test::Fail;

/// What a row calls.
#[derive(Clone, Copy)]
enum Call {
    New,
    Got,
    Refer,
    Unrefer,
    Lend,
    Settle,
    Ask,
    Granted,
    Gone,
    EndPeer,
    EndedAsk,
    Fill,
    NextToken,
    Named,
    LeaveNext,
    Reserve,
    HasRoom,
    Received,
    Uses,
    Names,
    Asks,
    ClassOf,
}

/// The words of the calls.
const CALLS: [(&[u8], Call); 22] = [
    (b"new", Call::New),
    (b"got", Call::Got),
    (b"refer", Call::Refer),
    (b"unrefer", Call::Unrefer),
    (b"lend", Call::Lend),
    (b"settle", Call::Settle),
    (b"ask", Call::Ask),
    (b"granted", Call::Granted),
    (b"gone", Call::Gone),
    (b"end_peer", Call::EndPeer),
    (b"ended_ask", Call::EndedAsk),
    (b"fill", Call::Fill),
    (b"next_token", Call::NextToken),
    (b"named", Call::Named),
    (b"leave_next", Call::LeaveNext),
    (b"reserve", Call::Reserve),
    (b"has_room", Call::HasRoom),
    (b"received", Call::Received),
    (b"uses", Call::Uses),
    (b"names", Call::Names),
    (b"asks", Call::Asks),
    (b"class_of", Call::ClassOf),
];

/// The foreign objects of a node, its lends and its asks.
#[derive(Drop)]
pub(crate) struct ImportCalls {
    imports: Imports,
    alloc: Global,
}

impl ImportCalls {
    /// The imports of a node that has none.
    pub(crate) fn new(alloc: Global, own: NodeId) -> ImportCalls {
        ImportCalls {
            imports: Imports::new(alloc, own),
            alloc,
        }
    }

    /// Begins anew as a node that has none.
    fn begin(&mut self, args: &Values) -> Result<Value, Fail> {
        self.imports = Imports::new(self.alloc, node_at(args, 0)?);
        Ok(Value::Nil)
    }

    /// Counts an object as received, and tells whether it did.
    fn got(&mut self, args: &Values) -> Result<Value, Fail> {
        let (oid, class) = (object_at(args, 0)?, class_at(args, 1)?);
        Ok(as_number(got(&mut self.imports, oid, class)))
    }

    /// Counts an object as used, and tells whether it did.
    fn refer(&mut self, args: &Values) -> Result<Value, Fail> {
        let oid = object_at(args, 0)?;
        Ok(as_number(refer(&mut self.imports, oid)))
    }

    /// Counts an object as used once less, and tells whether it did.
    fn unrefer(&mut self, args: &Values) -> Result<Value, Fail> {
        let oid = object_at(args, 0)?;
        Ok(as_number(unrefer(&mut self.imports, oid)))
    }

    /// Counts objects of a peer as received, as many, and tells of how many it did.
    fn count_got(&mut self, peer: NodeId, count: u16) -> i64 {
        let mut received: i64 = 0;
        for serial in 1..=u64::from(count) {
            if got(&mut self.imports, Oid { node: peer, serial }, ClassId(0)) {
                received = received.saturating_add(1);
            }
        }
        received
    }

    /// Ends the lowest ask of a home, and tells its object and its token, or nil.
    fn end_ask(&mut self, args: &Values) -> Result<Value, Fail> {
        let home = node_at(args, 0)?;
        let ask = self.imports.ended_ask(home);
        ask_value(self.alloc, ask)
    }

    /// Counts objects of a peer as received, and tells of how many it did.
    fn fill(&mut self, args: &Values) -> Result<Value, Fail> {
        let (peer, count) = (node_at(args, 0)?, count_at(args, 1)?);
        Ok(Value::Num(self.count_got(peer, count)))
    }

    /// Forgets what is kept of a peer.
    fn end_peer(&mut self, args: &Values) -> Result<Value, Fail> {
        let peer = node_at(args, 0)?;
        self.imports.end_peer(peer);
        Ok(Value::Nil)
    }

    /// Makes room for more.
    fn reserve(&mut self, args: &Values) -> Result<Value, Fail> {
        let more = amount_at(args, 0)?;
        self.imports.reserve(more, more)?;
        Ok(Value::Nil)
    }

    /// Whether there is room for more.
    fn has_room(&self, args: &Values) -> Result<Value, Fail> {
        let more = amount_at(args, 0)?;
        let room = self.imports.spare().min(self.imports.links());
        Ok(as_number(room >= more))
    }

    /// The objects that are named.
    fn named(&self) -> Result<Value, Fail> {
        Ok(show_list::<Oid>(&self.imports.named()?)?)
    }

    /// How often an object was received.
    fn received(&self, args: &Values) -> Result<Value, Fail> {
        amount_value(self.imports.received(object_at(args, 0)?))
    }

    /// How often an object is used.
    fn uses(&self, args: &Values) -> Result<Value, Fail> {
        amount_value(self.imports.uses(object_at(args, 0)?))
    }

    /// How many lends and asks name an object.
    fn names(&self, args: &Values) -> Result<Value, Fail> {
        amount_value(self.imports.names(object_at(args, 0)?))
    }

    /// How many asks are for an object.
    fn asks(&self, args: &Values) -> Result<Value, Fail> {
        amount_value(self.imports.asks(object_at(args, 0)?))
    }

    /// The class of an object, or nil.
    fn class_of(&self, args: &Values) -> Result<Value, Fail> {
        let oid = object_at(args, 0)?;
        Ok(class_or_nil(self.imports.class_of(oid)))
    }
}

impl Part for ImportCalls {
    fn call(&mut self, word: &[u8], args: &Values) -> Result<Value, Fail> {
        match call_of(&CALLS, word) {
            Some(Call::New) => self.begin(args),
            Some(Call::Got) => self.got(args),
            Some(Call::Refer) => self.refer(args),
            Some(Call::Unrefer) => self.unrefer(args),
            Some(Call::Lend) => lend(&mut self.imports, args),
            Some(Call::Settle) => settle(&mut self.imports, args),
            Some(Call::Ask) => ask(&mut self.imports, args),
            Some(Call::Granted) => granted(&mut self.imports, args),
            Some(Call::Gone) => gone(&mut self.imports, args),
            Some(Call::EndPeer) => self.end_peer(args),
            Some(Call::EndedAsk) => self.end_ask(args),
            Some(Call::Fill) => self.fill(args),
            Some(Call::NextToken) => amount_value(self.imports.next_token()),
            Some(Call::Named) => self.named(),
            Some(Call::LeaveNext) => left_value(self.alloc, self.imports.leave_next()),
            Some(Call::Reserve) => self.reserve(args),
            Some(Call::HasRoom) => self.has_room(args),
            Some(Call::Received) => self.received(args),
            Some(Call::Uses) => self.uses(args),
            Some(Call::Names) => self.names(args),
            Some(Call::Asks) => self.asks(args),
            Some(Call::ClassOf) => self.class_of(args),
            None => no_call(),
        }
    }
}
