//! Calls of a server of names.

use call_rows::{
    Part, call_of, count_at, digits, list_at, no_call, number_or_nil, port_at, refused, text_at,
};
use do_base::{Text, Value, Values};
use do_grammar::is_text;
use do_names::{Call, Names};
use do_native_acts::{CoreFault, as_number};
use std::alloc::Global;
use std::test::Fail;

/// What a row calls.
#[derive(Clone, Copy)]
enum RowCall {
    New,
    Register,
    Unregister,
    Perform,
    Fill,
    Read,
    Lookup,
    Slots,
}

/// The words of the calls.
const CALLS: [(&[u8], RowCall); 8] = [
    (b"new", RowCall::New),
    (b"register", RowCall::Register),
    (b"unregister", RowCall::Unregister),
    (b"perform", RowCall::Perform),
    (b"fill", RowCall::Fill),
    (b"read", RowCall::Read),
    (b"lookup", RowCall::Lookup),
    (b"slots", RowCall::Slots),
];

/// A server of names.
#[derive(Drop)]
pub(crate) struct NameCalls {
    names: Names,
    alloc: Global,
}

/// Gives a name a port.
fn register(names: &mut Names, name: Text, port: u16) -> Result<Result<bool, CoreFault>, Fail> {
    if name.is_empty() || port == 0 {
        return Err(Fail::from("no entry"));
    }
    Ok(names.register(name, port))
}

/// Gives a name a port, by a call that is one value.
fn perform_register(names: &mut Names, name: Text, port: u16) -> Result<Value, Fail> {
    if name.is_empty() || port == 0 {
        return Err(Fail::from("no entry"));
    }
    Ok(names.perform(Call::Register { name, port })?)
}

/// Makes a call that is one value.
fn perform(names: &mut Names, args: &Values) -> Result<Value, Fail> {
    let word = text_at(args, 0)?.as_slice();
    let name = text_at(args, 1)?.clone()?;
    if is_text(word, b"register") {
        return perform_register(names, name, port_at(args, 2)?);
    }
    if is_text(word, b"lookup") {
        return Ok(names.perform(Call::Lookup { name })?);
    }
    if is_text(word, b"unregister") {
        return Ok(names.perform(Call::Unregister { name })?);
    }
    no_call()
}

impl NameCalls {
    /// A server without names.
    pub(crate) fn new(alloc: Global) -> NameCalls {
        NameCalls {
            names: Names::new(alloc),
            alloc,
        }
    }

    /// Gives a name a port, and tells whether it has it now.
    fn register(&mut self, args: &Values) -> Result<Value, Fail> {
        let port = port_at(args, 1)?;
        let name = text_at(args, 0)?.clone()?;
        match register(&mut self.names, name, port)? {
            Ok(given) => Ok(as_number(given)),
            Err(fault) => refused(self.alloc, fault),
        }
    }

    /// Gives as many names port 7, and tells how many had it then.
    fn fill(&mut self, args: &Values) -> Result<Value, Fail> {
        let mut given: i64 = 0;
        for number in 0..count_at(args, 0)? {
            let name = digits(self.alloc, u64::from(number))?;
            if register(&mut self.names, name, 7)? == Ok(true) {
                given = given.saturating_add(1);
            }
        }
        Ok(Value::Num(given))
    }

    /// Takes the core whose slots these are, and tells whether there is one.
    fn read(&mut self, args: &Values) -> Result<Value, Fail> {
        let Some(names) = Names::from_slots(list_at(args, 0)?)? else {
            return Ok(as_number(false));
        };
        self.names = names;
        Ok(as_number(true))
    }

    /// Begins anew without names.
    fn begin(&mut self) -> Value {
        self.names = Names::new(self.alloc);
        Value::Nil
    }

    /// Takes a name's port, and tells whether it had one.
    fn unregister(&mut self, args: &Values) -> Result<Value, Fail> {
        let name = text_at(args, 0)?;
        Ok(as_number(self.names.unregister(name)))
    }

    /// The port of a name, or nil.
    fn lookup(&self, args: &Values) -> Result<Value, Fail> {
        let port = self.names.lookup(text_at(args, 0)?);
        Ok(number_or_nil(port.map(i64::from)))
    }

    /// The slots that keep the server.
    fn slots(&self) -> Result<Value, Fail> {
        Ok(Value::List(self.names.to_slots()?))
    }
}

impl Part for NameCalls {
    fn call(&mut self, word: &[u8], args: &Values) -> Result<Value, Fail> {
        match call_of(&CALLS, word) {
            Some(RowCall::New) => Ok(self.begin()),
            Some(RowCall::Register) => self.register(args),
            Some(RowCall::Unregister) => self.unregister(args),
            Some(RowCall::Perform) => perform(&mut self.names, args),
            Some(RowCall::Fill) => self.fill(args),
            Some(RowCall::Read) => self.read(args),
            Some(RowCall::Lookup) => self.lookup(args),
            Some(RowCall::Slots) => self.slots(),
            None => no_call(),
        }
    }
}
