//! An invocation with the slots of its object.

use crate::classes::table;
use call_rows::{
    act_value, begun, call_of, copy_at, count_at, handler_value, list_at, local_at, no_call,
    text_at,
};
use do_base::{Value, Values};
use do_behave::{Act, Invocation};
use do_class::{ClassId, ClassTable};
use std::alloc::Global;
use std::test::Fail;

/// What a row calls.
#[derive(Clone, Copy)]
enum Call {
    Begin,
    SetLocal,
    SetSlots,
    SetPlace,
    SetMethod,
    SetClass,
    KeepLocals,
    Slots,
    Local,
    Handler,
}

/// The words of the calls.
const CALLS: [(&[u8], Call); 10] = [
    (b"begin", Call::Begin),
    (b"set_local", Call::SetLocal),
    (b"set_slots", Call::SetSlots),
    (b"set_place", Call::SetPlace),
    (b"set_method", Call::SetMethod),
    (b"set_class", Call::SetClass),
    (b"keep_locals", Call::KeepLocals),
    (b"slots", Call::Slots),
    (b"local", Call::Local),
    (b"handler", Call::Handler),
];

/// An invocation, the slots of its object, and the table of the one method that it runs.
#[derive(Drop)]
pub(crate) struct Bench {
    pub(crate) alloc: Global,
    pub(crate) table: ClassTable,
    pub(crate) inv: Invocation,
    pub(crate) slots: Values,
}

/// Sets the first locals to the arguments behind the selector and the types.
fn set_arguments(inv: &mut Invocation, args: &Values) -> Result<(), Fail> {
    for at in 2..args.len() {
        let local = u8::try_from(at - 2)?;
        inv.set_local(local, copy_at(args, at)?, 0);
    }
    Ok(())
}

impl Bench {
    /// An invocation of a method without arguments, of an object without slots.
    pub(crate) fn new(alloc: Global) -> Result<Bench, Fail> {
        Ok(Bench {
            alloc,
            table: table(alloc, b"none", b"v@:")?,
            inv: begun(alloc, Value::Nil, Value::Nil)?,
            slots: Values::new(alloc),
        })
    }

    /// What an act was, as a list.
    pub(crate) fn shown(&self, act: Option<Act>) -> Result<Value, Fail> {
        act_value(self.alloc, act, self.inv.pc)
    }

    /// Begins the method of a selector and types, with the arguments behind them.
    fn begin(&mut self, args: &Values) -> Result<Value, Fail> {
        let selector = text_at(args, 0)?.as_slice();
        let types = text_at(args, 1)?.as_slice();
        self.table = table(self.alloc, selector, types)?;
        self.inv = begun(self.alloc, Value::Nil, Value::Nil)?;
        set_arguments(&mut self.inv, args)?;
        Ok(Value::Nil)
    }

    /// Sets a local.
    fn set_local(&mut self, args: &Values) -> Result<Value, Fail> {
        let local = local_at(args, 0)?;
        let pc = self.inv.pc;
        self.inv.set_local(local, copy_at(args, 1)?, pc);
        Ok(Value::Nil)
    }

    /// Sets the slots of the object.
    fn set_slots(&mut self, args: &Values) -> Result<Value, Fail> {
        self.slots = list_at(args, 0)?.clone()?;
        Ok(Value::Nil)
    }

    /// Sets the place in the method.
    fn set_place(&mut self, args: &Values) -> Result<Value, Fail> {
        self.inv.pc = u32::from(count_at(args, 0)?);
        Ok(Value::Nil)
    }

    /// Sets the number of the method.
    fn set_method(&mut self, args: &Values) -> Result<Value, Fail> {
        self.inv.method.index = u32::from(count_at(args, 0)?);
        Ok(Value::Nil)
    }

    /// Sets the class of the method.
    fn set_class(&mut self, args: &Values) -> Result<Value, Fail> {
        self.inv.method.class = ClassId(u32::from(count_at(args, 0)?));
        Ok(Value::Nil)
    }

    /// Leaves the first locals.
    fn keep_locals(&mut self, args: &Values) -> Result<Value, Fail> {
        let few = usize::from(count_at(args, 0)?);
        self.inv.locals.truncate(few);
        Ok(Value::Nil)
    }

    /// The slots of the object.
    fn slots(&self) -> Result<Value, Fail> {
        Ok(Value::List(self.slots.clone()?))
    }

    /// What a local holds.
    fn local(&self, args: &Values) -> Result<Value, Fail> {
        let local = local_at(args, 0)?;
        Ok(self.inv.copy_local(local)?.ok_or("no local")?)
    }

    /// Makes a call that sets or tells a part of the invocation or its slots.
    pub(crate) fn call(&mut self, word: &[u8], args: &Values) -> Result<Value, Fail> {
        match call_of(&CALLS, word) {
            Some(Call::Begin) => self.begin(args),
            Some(Call::SetLocal) => self.set_local(args),
            Some(Call::SetSlots) => self.set_slots(args),
            Some(Call::SetPlace) => self.set_place(args),
            Some(Call::SetMethod) => self.set_method(args),
            Some(Call::SetClass) => self.set_class(args),
            Some(Call::KeepLocals) => self.keep_locals(args),
            Some(Call::Slots) => self.slots(),
            Some(Call::Local) => self.local(args),
            Some(Call::Handler) => handler_value(self.alloc, self.inv.handler),
            None => no_call(),
        }
    }
}
