//! Calls of a store, whose objects have two slots: the second is nil when they are made.
ghost use Rattle.std.specs.Prelude.{◌≡◌};

mod may;
mod objects;

use crate::parts::answers::{amount_value, class_value};
use crate::parts::arguments::{amount_at, class_at, node_at};
use crate::parts::store::objects::{create, hold, let_go, write_slot};
use call_rows::{
    Part, call_of, copy_at, count_at, no_call, object_at, object_or_nil, pair_value, text_value,
    triple_value,
};
use do_base::{NodeId, Oid, Value, Values};
use do_native_acts::{as_number, show_list};
use do_store::{Freed, Store};
use std::alloc::{AllocError, Global};
use std::test::Fail;

/// What a row calls.
#[derive(Clone, Copy)]
enum Call {
    New,
    Create,
    SetSlot,
    Sweep,
    NextSerial,
    Stored,
    Reserve,
    HasRoom,
    Get,
    Names,
    Holders,
    Retain,
    Release,
}

/// The words of the calls.
const CALLS: [(&[u8], Call); 13] = [
    (b"new", Call::New),
    (b"create", Call::Create),
    (b"set_slot", Call::SetSlot),
    (b"sweep", Call::Sweep),
    (b"next_serial", Call::NextSerial),
    (b"stored", Call::Stored),
    (b"reserve", Call::Reserve),
    (b"has_room", Call::HasRoom),
    (b"get", Call::Get),
    (b"names", Call::Names),
    (b"holders", Call::Holders),
    (b"retain", Call::Retain),
    (b"release", Call::Release),
];

/// The stored objects of a node.
#[derive(Drop)]
pub(crate) struct StoreCalls {
    store: Store,
    node: NodeId,
    alloc: Global,
    ghost home: { store.node ≡ node },
}

/// An object that was freed, its class and its slots, or nil for none.
fn freed_or_nil(alloc: Global, freed: Option<Freed>) -> Result<Value, Fail> {
    let Some(Freed { oid, class, slots }) = freed else {
        return Ok(Value::Nil);
    };
    let slots = Value::List(slots);
    triple_value(alloc, Value::Obj(oid), class_value(class), slots)
}

impl StoreCalls {
    /// A store of no object.
    pub(crate) fn new(alloc: Global, node: NodeId) -> Result<StoreCalls, AllocError> {
        let store = Store::new(alloc, node)?;
        Ok(StoreCalls { store, node, alloc })
    }

    /// Begins anew with a node that stores nothing.
    fn begin(&mut self, args: &Values) -> Result<Value, Fail> {
        *self = StoreCalls::new(self.alloc, node_at(args, 0)?)?;
        Ok(Value::Nil)
    }

    /// Whether there is room for more objects.
    fn has_room(&self, args: &Values) -> Result<Value, Fail> {
        let more = amount_at(args, 0)?;
        Ok(as_number(self.store.spare() >= more))
    }

    /// Makes room, where there are not too many objects.
    fn reserve(&mut self, args: &Values) -> Result<Value, Fail> {
        let more = amount_at(args, 0)?;
        let next = self.store.next_serial();
        if more > u64::MAX - next {
            return Err(Fail::from("too many objects"));
        }
        self.store.reserve(more)?;
        Ok(Value::Nil)
    }

    /// Stores an object whose first slot holds a value, and tells its name. Nil where the value
    /// names an object that is not stored.
    fn create(&mut self, args: &Values) -> Result<Value, Fail> {
        let class = class_at(args, 0)?;
        let value = copy_at(args, 1)?;
        match create(&mut self.store, self.alloc, self.node, class, value) {
            Ok(made) => Ok(object_or_nil(made)),
            Err(error) => Err(Fail::from(error)),
        }
    }

    /// Writes a slot, and tells what it held. A word where that may not be.
    fn set_slot(&mut self, args: &Values) -> Result<Value, Fail> {
        let oid = object_at(args, 0)?;
        let at = usize::from(count_at(args, 1)?);
        let value = copy_at(args, 2)?;
        match write_slot(&mut self.store, self.node, oid, at, value) {
            Some(was) => Ok(was),
            None => text_value(self.alloc, b"refused"),
        }
    }

    /// The class and the slots of an object, or nil.
    fn get(&self, args: &Values) -> Result<Value, Fail> {
        let oid = object_at(args, 0)?;
        let Some((class, slots)) = self.store.get(oid) else {
            return Ok(Value::Nil);
        };
        let slots = Value::List(slots.clone()?);
        pair_value(self.alloc, class_value(class), slots)
    }

    /// Takes out an object that nothing holds, and tells which; nil where there is none.
    fn sweep(&mut self) -> Result<Value, Fail> {
        let freed = self.store.sweep();
        freed_or_nil(self.alloc, freed)
    }

    /// The objects that are stored.
    fn stored(&self) -> Result<Value, Fail> {
        Ok(show_list::<Oid>(&self.store.stored()?)?)
    }

    /// How many slots name an object.
    fn names(&self, args: &Values) -> Result<Value, Fail> {
        amount_value(self.store.names(object_at(args, 0)?))
    }

    /// How many hold an object.
    fn holders(&self, args: &Values) -> Result<Value, Fail> {
        amount_value(self.store.holders(object_at(args, 0)?))
    }

    /// Counts one holder of an object more.
    fn retain(&mut self, args: &Values) -> Result<Value, Fail> {
        let oid = object_at(args, 0)?;
        Ok(as_number(hold(&mut self.store, oid)))
    }

    /// Counts one holder of an object less.
    fn release(&mut self, args: &Values) -> Result<Value, Fail> {
        let oid = object_at(args, 0)?;
        Ok(as_number(let_go(&mut self.store, oid)))
    }
}

impl Part for StoreCalls {
    fn call(&mut self, word: &[u8], args: &Values) -> Result<Value, Fail> {
        match call_of(&CALLS, word) {
            Some(Call::New) => self.begin(args),
            Some(Call::Create) => self.create(args),
            Some(Call::SetSlot) => self.set_slot(args),
            Some(Call::Sweep) => self.sweep(),
            Some(Call::NextSerial) => amount_value(self.store.next_serial()),
            Some(Call::Stored) => self.stored(),
            Some(Call::Reserve) => self.reserve(args),
            Some(Call::HasRoom) => self.has_room(args),
            Some(Call::Get) => self.get(args),
            Some(Call::Names) => self.names(args),
            Some(Call::Holders) => self.holders(args),
            Some(Call::Retain) => self.retain(args),
            Some(Call::Release) => self.release(args),
            None => no_call(),
        }
    }
}
