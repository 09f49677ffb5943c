ghost use Rattle.std.specs.{Prelude.{◌≡◌, ◌≤◌, length}, Option.option_copied};
ghost use Rattle.do_behave.specs.Script.{code_of, is_ready};

use crate::act::Act;
use crate::behaviour::Behaviour;
use crate::change::Change;
use crate::invocation::Invocation;
use crate::script::perform;
use do_base::{Items, Value, Values};
use do_class::{ClassTable, MethodId};
use do_script::Code;
use std::alloc::AllocError;
use std::marker::Model;

/// The codes of the methods of one class, in their order.
pub type ClassCodes = Items<Code>;

/// The codes of the classes of a table, in their order.
pub type Codes = Items<ClassCodes>;

/// A behaviour of scripts: one code for each method of a table.
///
/// Contracts see a program as the list of its listings, by class and by place there.
#[derive(Debug, Drop)]
pub struct Program {
    by_class: Codes,
}

impl Model for Program {
    ghost use Rattle.do_script.specs.contracts.instruction.Instruction as instruction;
    ghost use Rattle.std.specs.{Prelude.List, Coded.codes};
    ghost use Rattle.do_script.specs.Listing.{Listing};

    ghost Value = { List (List Listing) };

    ghost coded = { Prim.hlevel (codes, instruction.the_row.coded) };

    ghost view = { λ p. p.by_class };
}

impl Program {
    /// A program for a table, with a code for each of its methods.
    ///
    /// Where it has other codes, its acts are still those of its codes, and a method without a code
    /// raises Type.
    pub fn new(_table: &ClassTable, codes: Codes) -> Program
        ensures { result ≡ codes }
    {
        Program { by_class: codes }
    }

    /// The code of a method.
    fn code_of(&self, method: MethodId) -> Option<&Code>
        ensures { option_copied result ≡ code_of self.now method }
    {
        let of_class = self.by_class.get(method.class.0 as usize)?;
        of_class.get(method.index as usize)
    }
}

/// Whether there are sixteen locals, as many slots as the code names, and as many classes.
fn is_ready(table: &ClassTable, inv: &Invocation, slots: &Values, code: &Code) -> bool
    ensures ready { result ≡ is_ready table.now inv.now slots.now code.now }
    ensures few { length table.now ≤ 256 }
{
    let locals = inv.locals.len() == 16;
    let slots = code.slots() <= slots.len();
    let classes = code.classes() <= table.count() as usize;
    locals & (slots & classes)
}

impl Behaviour for Program {
    ghost use Rattle.do_behave.specs.{Programs.IsMadeFor, Script.script};
    ghost use Rattle.do_behave.specs.laws.ScriptLaws.{script_names_shown, script_answers_well};

    ghost act = { script };

    ghost made_for = { IsMadeFor };

    ghost names_shown = { script_names_shown };

    ghost answers_well = { script_answers_well };

    fn act(
        &self,
        table: &ClassTable,
        inv: &Invocation,
        slots: &Values,
    ) -> Result<Change, AllocError> {
        let Some(code) = self.code_of(inv.method) else {
            return Ok(Change::type_fault());
        };
        if !is_ready(table, inv, slots, code) {
            return Ok(Change::type_fault());
        }
        match code.get(inv.pc as usize) {
            Some(instruction) => perform(inv, slots, instruction),
            None => Ok(Change::Other(Act::Return { value: Value::Nil })),
        }
    }
}
