ghost use Rattle.std.specs.Prelude.{◌≡◌, IfOk, OnErr, OnOk};
ghost use Rattle.do_machine.specs.{Step.step, World.opening, check.Snapshot.snapshot};

use crate::check::snapshot;
use crate::opening::opening;
use crate::stepping::step;
use do_base::Event;
use do_behave::Behaviour;
use do_class::ClassTable;
use do_machine::{Outcome, Seats, Snapshot, State};
use std::alloc::AllocError;

/// One machine: all nodes of a world, with the items under way between them.
///
/// Contracts see its classes, its behaviour and its state.
#[derive(Drop)]
pub struct Local<B> {
    table: ClassTable,
    behaviour: B,
    state: State,
}

impl<B: Behaviour + Drop> Local<B> {
    /// The machine of a world before its first event, in whatever order the nodes are listed.
    ///
    /// Its one error is that memory ran out.
    pub fn new(table: ClassTable, nodes: &Seats, behaviour: B) -> Result<Local<B>, AllocError>
        ensures table { IfOk result (λ m. m.table ≡ table) }
        ensures behaviour { IfOk result (λ m. m.behaviour ≡ behaviour) }
        ensures state { IfOk result (λ m. m.state ≡ opening table nodes.now) }
    {
        let state = opening(&table, nodes)?;
        Ok(Local {
            table,
            behaviour,
            state,
        })
    }

    /// The classes of its world.
    pub fn table(&self) -> &ClassTable
        ensures { result.now ≡ self.now.table }
    {
        &self.table
    }

    /// The state that it is in.
    pub fn state(&self) -> &State
        ensures { result.now ≡ self.now.state }
    {
        &self.state
    }

    /// One event. One that is not enabled shows nothing and leaves the state as it was.
    ///
    /// Its one error is that memory ran out, or that a number would pass what a machine can count,
    /// and leaves the machine as it was.
    pub fn step(&mut self, event: &Event) -> Result<Outcome, AllocError>
        ensures outcome { IfOk result (λ outcome. outcome ≡
            (step self.old.table (B.act self.old.behaviour) self.old.state event.now).outcome) }
        ensures ok { OnOk result (self.new ≡ record self.old {
          state =
              (step self.old.table (B.act self.old.behaviour) self.old.state event.now).state;
        }) }
        ensures err { OnErr result (self.new ≡ self.old) }
    {
        let stepped = step(&self.table, &self.behaviour, &self.state, event)?;
        self.state = stepped.state;
        Ok(stepped.outcome)
    }

    /// What a check lists: the nodes by rising port, each with its root, its closed ends, its
    /// objects and their entries.
    ///
    /// Its one error is that memory ran out.
    pub fn snapshot(&self) -> Result<Snapshot, AllocError>
        ensures { IfOk result (λ listed. listed ≡ snapshot self.now.state) }
    {
        snapshot(&self.state)
    }
}
