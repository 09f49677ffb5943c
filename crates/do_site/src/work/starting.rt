//! Starts.
ghost use Rattle.std.specs.Prelude.{IfOk, OnErr, OnOk};
ghost use Rattle.do_machine.specs.{Start.start_effect, Effect.only, run.Fresh.pushed};
ghost use Rattle.do_effects.specs.Tidy.{IsTidy};
ghost use Rattle.do_site.specs.{Kept.{IsKept, StaysKept}, Room.CanSettle};
ghost use Rattle.do_site.specs.Steps.{Does, IsSame, Moves};

use crate::ground::judged_by;
use crate::needs::Needs;
use crate::tally::Reach;
use crate::work::Work;
use do_base::{Text, Values};
use do_behave::{InvState, Invocation};
use do_class::ClassTable;
use do_rules::begun;
use std::alloc::AllocError;

impl Work {
    /// An invocation begins at a node that is idle.
    ///
    /// An error means that memory ran out, or that the invocation names an own object that is not
    /// stored; nothing but room changed then.
    fn begin(&mut self, invocation: Invocation) -> Result<(), AllocError>
        requires tidy { IsTidy self.old.core.part.own }
        requires places { CanSettle self.old }
        ensures ok { OnOk result (Moves self.old.core self.new.core
            (only (pushed invocation self.old.core.part.own.node))) }
        ensures err { OnErr result (IsSame self.old.core self.new.core) }
        ensures kept { StaysKept self.old self.new }
        ensures places { CanSettle self.new }
    {
        let part = &self.core.part;
        let Some(names) = (Reach { part, more: 0 }).of_invocation(&invocation) else {
            return Err(AllocError);
        };
        if part.depth() >= 256 || !matches!(&invocation.state, InvState::Running) {
            return Err(AllocError);
        }
        self.make_room(&Needs::to_push(names))?;
        self.core.part.push(invocation);
        self.has_few();
        self.leave();
        Ok(())
    }

    /// A start begins an invocation of the root. False exactly where it is not enabled: the node is
    /// not idle, it has no root, the root has no such method, or the values do not fit it.
    ///
    /// An error means that memory ran out, or that the values, which are plain in every start that
    /// is read, name an own object that is not stored; nothing but room changed then.
    pub fn start(
        &mut self,
        table: &ClassTable,
        selector: &Text,
        values: &Values,
    ) -> Result<bool, AllocError>
        requires kept { IsKept table.now self.old }
        requires places { CanSettle self.old }
        ensures done { IfOk result (λ told. Does self.old.core self.new.core told
            (start_effect table.now selector.now values.now self.old.core.part.own.node)) }
        ensures err { OnErr result (IsSame self.old.core self.new.core) }
        ensures kept { StaysKept self.old self.new }
        ensures places { CanSettle self.new }
    {
        let ground = judged_by(table, &self.core.part);
        let Ok(started) = begun(&ground, selector, values) else {
            return Err(AllocError);
        };
        let Some(invocation) = started else {
            return Ok(false);
        };
        self.begin(invocation)?;
        Ok(true)
    }
}
