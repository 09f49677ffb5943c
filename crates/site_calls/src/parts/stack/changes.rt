//! Changes of the top of a stack: by the code of its method, or of all locals and of several.

use crate::parts::stack::exchanges::exchanged_or_nil;
use call_rows::{begun, copy_at, count_at, list_at, text_at};
use do_base::{Text, Value, Values, copy_value};
use do_behave::{
    Act, Behaviour, Change, ClassCodes, Codes, Frame, Handler, Invocation, LocalSet, LocalSets,
    Program, Write, Writes,
};
use do_class::ClassTable;
use do_script::{Code, Names, assemble};
use do_stack::{Exchanged, Stack};
use std::alloc::{AllocError, Global};
use std::test::Fail;

/// The code of one method of a class with the slot `m`, and the slots of an object, which hold nil.
#[derive(Drop)]
pub(crate) struct Script {
    program: Program,
    table: ClassTable,
    names: Names,
    slots: Values,
}

/// A program with this code for its first method.
fn program(alloc: Global, table: &ClassTable, code: Code) -> Result<Program, AllocError> {
    let first = ClassCodes::from_vec(vec![in alloc; code]?);
    let codes = Codes::from_vec(vec![in alloc; first]?);
    Ok(Program::new(table, codes))
}

/// Adds texts, each as a line.
fn push_lines(lines: &mut Text, texts: &Values) -> Result<(), Fail> {
    for at in 0..texts.len() {
        lines.push_bytes(text_at(texts, at)?.as_slice())?;
        lines.push(b'\n')?;
    }
    Ok(())
}

/// Texts as the lines of one text.
fn lines_of(texts: &Values) -> Result<Text, Fail> {
    let mut lines = Text::new(texts.allocator());
    push_lines(&mut lines, texts)?;
    Ok(lines)
}

/// The code of these lines, which may name these slots and no class.
fn code_of(lines: &Text, slots: &Names) -> Result<Code, Fail> {
    let alloc = slots.allocator();
    Ok(assemble(alloc, lines.as_slice(), slots, &Names::new(alloc))?)
}

/// The names of slots, of which there is one.
fn slot_names(alloc: Global) -> Result<Names, AllocError> {
    let name = Text::from_slice(alloc, b"m")?;
    Ok(Names::from_vec(vec![in alloc; name]?))
}

impl Script {
    /// A program without methods.
    pub(crate) fn new(alloc: Global) -> Result<Script, AllocError> {
        let names = slot_names(alloc)?;
        let slots = Values::from_vec(vec![in alloc; Value::Nil]?);
        let table = ClassTable::new(alloc);
        let program = Program::new(&table, Codes::new(alloc));
        Ok(Script {
            program,
            table,
            names,
            slots,
        })
    }

    /// Takes these lines for the code of the first method.
    pub(crate) fn set(&mut self, lines: &Values) -> Result<(), Fail> {
        let code = code_of(&lines_of(lines)?, &self.names)?;
        self.program = program(lines.allocator(), &self.table, code)?;
        Ok(())
    }
}

/// Makes the change that the code of the top makes next, and shows it; nil where there is no top.
pub(crate) fn act(alloc: Global, stack: &mut Stack, script: &Script) -> Result<Value, Fail> {
    let Some(top) = stack.top() else {
        return Ok(Value::Nil);
    };
    let change = script.program.act(&script.table, top, &script.slots)?;
    let done = stack.change(change)?;
    exchanged_or_nil(alloc, Some(done))
}

/// Adds values for the first locals.
fn push_sets(sets: &mut LocalSets, values: &Values) -> Result<(), AllocError> {
    let mut local: u8 = 0;
    for value in values.as_slice() {
        let value = copy_value(value)?;
        sets.push(LocalSet { local, value })?;
        local = local.saturating_add(1);
    }
    Ok(())
}

/// Values for the first locals.
fn first_sets(values: &Values) -> Result<LocalSets, AllocError> {
    let mut sets = LocalSets::new(values.allocator());
    push_sets(&mut sets, values)?;
    Ok(sets)
}

/// A write of nil to the first slot.
fn nil_write(alloc: Global) -> Result<Writes, AllocError> {
    let value = Value::Nil;
    Ok(Writes::from_vec(vec![in alloc; Write { slot: 0, value }]?))
}

/// Sets locals of the top, makes writes, and goes on at a place with a handler. None where there is
/// no top.
fn change_several(
    stack: &mut Stack,
    sets: LocalSets,
    writes: Writes,
    pc: u32,
) -> Result<Option<Exchanged>, AllocError> {
    if stack.depth() == 0 {
        return Ok(None);
    }
    let done = stack.change(Change::Slots {
        sets,
        handler: Some(Handler { into: 15, pc: 7 }),
        writes,
        pc,
    })?;
    Ok(Some(done))
}

/// Sets the first locals of the top, writes nil to its first slot, and shows what that took out;
/// nil where there is no top.
pub(crate) fn set_locals(alloc: Global, stack: &mut Stack, args: &Values) -> Result<Value, Fail> {
    let pc = u32::from(count_at(args, 1)?);
    let sets = first_sets(list_at(args, 0)?)?;
    let writes = nil_write(alloc)?;
    let done = change_several(stack, sets, writes, pc)?;
    exchanged_or_nil(alloc, done)
}

/// Sets all locals of the top in one step to a place. None where there is no top.
fn change_all(
    stack: &mut Stack,
    alloc: Global,
    locals: Frame,
    pc: u32,
) -> Result<Option<Exchanged>, AllocError> {
    if stack.depth() == 0 {
        return Ok(None);
    }
    let done = stack.change(Change::Other(Act::Step {
        pc,
        locals,
        handler: None,
        writes: Writes::new(alloc),
    }))?;
    Ok(Some(done))
}

/// Replaces all locals of the top, of which the first two then hold values, and shows what that
/// took out; nil where there is no top.
pub(crate) fn replace_locals(
    alloc: Global,
    stack: &mut Stack,
    args: &Values,
) -> Result<Value, Fail> {
    let pc = u32::from(count_at(args, 2)?);
    let second = copy_at(args, 1)?;
    let Invocation { locals, .. } = begun(alloc, copy_at(args, 0)?, second)?;
    let done = change_all(stack, alloc, locals, pc)?;
    exchanged_or_nil(alloc, done)
}
