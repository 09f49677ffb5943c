//! An invocation of a script with the slots of its object, and its acts.

use crate::scripts::changes::{add_handler, add_locals, add_slots, sets_of, values_of, writes_of};
use crate::scripts::frames::{invocation, set_first, slots};
use crate::scripts::programs::{program_of, text_around, two_classes};
use call_rows::{
    Part, act_value, call_of, copy_at, count_at, list_at, local_at, no_call, word_with,
};
use do_base::{Value, Values};
use do_behave::{Act, Change, Handler, Held, Invocation, Program, act_in_place, make_change};
use do_class::ClassTable;
use std::alloc::Global;
use std::test::Fail;

/// What a row calls.
#[derive(Clone, Copy)]
enum Call {
    Act,
    ActAt,
    Begin,
    Next,
    MakeChange,
    SetLocal,
    Locals,
    Place,
    KeepLocals,
    SetClass,
    SetSlots,
}

/// The words of the calls.
const CALLS: [(&[u8], Call); 11] = [
    (b"act", Call::Act),
    (b"act_at", Call::ActAt),
    (b"begin", Call::Begin),
    (b"next", Call::Next),
    (b"make_change", Call::MakeChange),
    (b"set_local", Call::SetLocal),
    (b"locals", Call::Locals),
    (b"place", Call::Place),
    (b"keep_locals", Call::KeepLocals),
    (b"set_class", Call::SetClass),
    (b"set_slots", Call::SetSlots),
];

/// An invocation of a script, the slots of its object, and the program.
#[derive(Drop)]
pub(crate) struct ScriptCalls {
    alloc: Global,
    table: ClassTable,
    program: Program,
    inv: Invocation,
    slots: Values,
}

/// What an invocation and its slots were before an act.
#[derive(Drop)]
struct Before {
    locals: Values,
    handler: Option<Handler>,
    slots: Values,
}

/// The arguments behind the first.
fn rest_of(args: &Values) -> &[Value] {
    match args.as_slice() {
        [_, rest @ ..] => rest,
        [] => &[],
    }
}

/// Leaves the first `few` locals, and adds `more` behind them that hold nil.
fn keep_locals(inv: &mut Invocation, args: &Values) -> Result<(), Fail> {
    let (few, more) = (count_at(args, 0)?, count_at(args, 1)?);
    inv.locals.truncate(usize::from(few));
    for _more in 0..more {
        inv.locals.push(Held::new(Value::Nil))?;
    }
    Ok(())
}

impl ScriptCalls {
    /// An invocation of an empty script.
    pub(crate) fn new(alloc: Global) -> Result<ScriptCalls, Fail> {
        let table = two_classes(alloc)?;
        let program = program_of(alloc, &table, b"")?;
        let inv = invocation(alloc, 0)?;
        let slots = slots(alloc)?;
        Ok(ScriptCalls {
            alloc,
            table,
            program,
            inv,
            slots,
        })
    }

    /// Begins anew at a place of a method's text.
    fn begin(&mut self, text: &[u8], pc: u16) -> Result<(), Fail> {
        self.program = program_of(self.alloc, &self.table, text)?;
        self.inv = invocation(self.alloc, u32::from(pc))?;
        self.slots = slots(self.alloc)?;
        Ok(())
    }

    /// Begins a method's text anew, with the first two locals behind it.
    fn begin_text(&mut self, args: &Values) -> Result<Value, Fail> {
        let [text, first, second] = args.as_slice() else {
            return Err(Fail::from("no text and two locals"));
        };
        self.begin(text.text().ok_or("no text")?.as_slice(), 0)?;
        set_first(&mut self.inv, first, second)?;
        Ok(Value::Nil)
    }

    /// What the invocation and its slots are now.
    fn now(&self) -> Result<Before, Fail> {
        let locals = values_of(&self.inv)?;
        let slots = self.slots.clone()?;
        Ok(Before {
            locals,
            handler: self.inv.handler,
            slots,
        })
    }

    /// Adds what an act changed.
    fn push_changes(&self, changed: &mut Values, before: &Before) -> Result<(), Fail> {
        add_locals(changed, &before.locals, &self.inv)?;
        add_handler(changed, before.handler, self.inv.handler)?;
        add_slots(changed, &before.slots, &self.slots)
    }

    /// What an act was, and behind it what it changed.
    fn shown(&self, act: Option<Act>, before: &Before) -> Result<Value, Fail> {
        let act = act_value(self.alloc, act, self.inv.pc)?;
        let mut changed = Values::from_vec(vec![in self.alloc; act]?);
        self.push_changes(&mut changed, before)?;
        Ok(Value::List(changed))
    }

    /// Does an act.
    fn next(&mut self) -> Result<Value, Fail> {
        let before = self.now()?;
        let act = act_in_place(&self.program, &self.table, &mut self.inv, &mut self.slots)?;
        self.shown(act, &before)
    }

    /// Does the act of an instruction at a place of the text around it.
    fn act_at(&mut self, pc: u16, args: &[Value]) -> Result<Value, Fail> {
        let [line, first, second] = args else {
            return Err(Fail::from("no instruction and two locals"));
        };
        let line = line.text().ok_or("no text")?;
        let text = text_around(self.alloc, line.as_slice())?;
        self.begin(text.as_slice(), pc)?;
        set_first(&mut self.inv, first, second)?;
        self.next()
    }

    /// Does the act of an instruction at the first place.
    fn act_behind(&mut self, args: &Values) -> Result<Value, Fail> {
        self.act_at(count_at(args, 0)?, rest_of(args))
    }

    /// Sets locals, takes away the handler, writes slots, and goes on at a place.
    fn make_change(&mut self, args: &Values) -> Result<Value, Fail> {
        let pc = u32::from(count_at(args, 2)?);
        let sets = sets_of(list_at(args, 0)?)?;
        let writes = writes_of(list_at(args, 1)?)?;
        let before = self.now()?;
        let change = Change::Slots {
            sets,
            handler: None,
            writes,
            pc,
        };
        let left = make_change(&mut self.inv, &mut self.slots, change)?;
        self.shown(left, &before)
    }

    /// Sets a local and the place, and gives what the local held; where it is not there, the value
    /// itself.
    fn set_local(&mut self, args: &Values) -> Result<Value, Fail> {
        let local = local_at(args, 0)?;
        let pc = u32::from(count_at(args, 2)?);
        let was = self.inv.set_local(local, copy_at(args, 1)?, pc);
        word_with(self.alloc, b"was", was)
    }

    /// The values of the locals.
    fn locals(&self) -> Result<Value, Fail> {
        Ok(Value::List(values_of(&self.inv)?))
    }

    /// Leaves locals, and adds others.
    fn keep_locals(&mut self, args: &Values) -> Result<Value, Fail> {
        keep_locals(&mut self.inv, args)?;
        Ok(Value::Nil)
    }

    /// Gives the method to another class.
    fn set_class(&mut self, args: &Values) -> Result<Value, Fail> {
        self.inv.method.class.0 = u32::from(count_at(args, 0)?);
        Ok(Value::Nil)
    }

    /// Sets the slots of the object.
    fn set_slots(&mut self, args: &Values) -> Result<Value, Fail> {
        self.slots = list_at(args, 0)?.clone()?;
        Ok(Value::Nil)
    }
}

impl Part for ScriptCalls {
    fn call(&mut self, word: &[u8], args: &Values) -> Result<Value, Fail> {
        match call_of(&CALLS, word) {
            Some(Call::Act) => self.act_at(3, args.as_slice()),
            Some(Call::ActAt) => self.act_behind(args),
            Some(Call::Begin) => self.begin_text(args),
            Some(Call::Next) => self.next(),
            Some(Call::MakeChange) => self.make_change(args),
            Some(Call::SetLocal) => self.set_local(args),
            Some(Call::Locals) => self.locals(),
            Some(Call::Place) => Ok(Value::Num(i64::from(self.inv.pc))),
            Some(Call::KeepLocals) => self.keep_locals(args),
            Some(Call::SetClass) => self.set_class(args),
            Some(Call::SetSlots) => self.set_slots(args),
            None => no_call(),
        }
    }
}
