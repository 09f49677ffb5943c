//! A behaviour that counts the acts that it is asked for.
ghost use Rattle.std.specs.Prelude.{◌≡◌};

use do_base::Values;
use do_behave::{Behaviour, Change, Invocation, Program};
use do_class::ClassTable;
use do_machine::Shared;
use std::alloc::AllocError;
use std::cell::Cell;

/// The acts of a program, with how many were asked for.
#[derive(Drop)]
pub(crate) struct Counting {
    program: Shared<Program>,
    asked: Cell<u64>,
}

impl Counting {
    /// The acts of this program, none of which was asked for.
    pub(crate) fn new(program: Shared<Program>) -> Counting
        ensures { result.program ≡ program }
    {
        Counting {
            program,
            asked: Cell::new(0),
        }
    }

    /// How many acts were asked for.
    pub(crate) fn asked(&self) -> u64 {
        self.asked.get()
    }
}

impl Behaviour for Counting {
    ghost use Rattle.do_behave.specs.{Programs.IsMadeFor, Script.script};
    ghost use Rattle.do_behave.specs.laws.ScriptLaws.{script_names_shown, script_answers_well};

    ghost act = { λ c. script c.program };

    ghost made_for = { λ c. IsMadeFor c.program };

    ghost names_shown = { λ c. script_names_shown c.program };

    ghost answers_well = { λ c. script_answers_well c.program };

    fn act(
        &self,
        table: &ClassTable,
        inv: &Invocation,
        slots: &Values,
    ) -> Result<Change, AllocError> {
        self.asked.set(self.asked.get().saturating_add(1));
        self.program.get().act(table, inv, slots)
    }
}
