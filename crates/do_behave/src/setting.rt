//! How an invocation changes in place: what it held and no longer does is handed back.
ghost use Rattle.std.specs.Prelude.{◌≡◌, OnOk, OnErr, IsSomeAnd, get_or, slice_set};
ghost use Rattle.do_base.specs.declared.values.value.Value.{Value};
ghost use Rattle.do_behave.specs.{LongerList.{FitsIn, longer_at}, Steps.local};

use crate::held::{Frame, Held};
use crate::invocation::{Handler, InvState, Invocation};
use do_base::{Locals, Value};
use std::alloc::AllocError;
use std::mem;

/// Puts a value into a local, and hands back what it held. Where there is no such local, none is
/// set, and the value itself comes back.
#[inline(always)]
pub fn put_local(locals: &mut Frame, local: u8, value: Value) -> Value
    ensures locals { locals.new ≡ slice_set locals.old local value }
    ensures was { result ≡ get_or locals.old local value }
{
    let at = local as usize;
    if at >= locals.len() {
        return value;
    }
    locals.replace(at, Held::new(value)).into_value()
}

impl Invocation {
    /// Sets a local, and goes on at a place. What the local held is handed back; where there is no
    /// such local none is set, and the value itself comes back.
    #[inline(always)]
    pub fn set_local(&mut self, into: u8, value: Value, pc: u32) -> Value
        ensures new { self.new
            ≡ record self.old { pc = pc; locals = slice_set self.old.locals into value } }
        ensures was { result ≡ get_or self.old.locals into value }
    {
        self.pc = pc;
        put_local(&mut self.locals, into, value)
    }

    /// Appends an item to the list in a local, which then has this weight, and goes on at a place.
    /// If memory runs out, the invocation is unchanged.
    #[tactic(auto, using(crate::proofs::ListUpdates::set_steps))]
    pub fn push_item(
        &mut self,
        list: u8,
        item: Value,
        weight: u64,
        pc: u32,
    ) -> Result<(), AllocError>
        requires { IsSomeAnd (local self.old list) (λ value. FitsIn value item weight) }
        ensures ok { OnOk result (self.new ≡ record self.old {
          pc = pc;
          locals = longer_at self.old.locals list item;
        }) }
        ensures err { OnErr result (self.new ≡ self.old) }
    {
        let at = list as usize;
        if at < self.locals.len() {
            self.locals.at_mut(at).push(item, weight)?;
        }
        self.pc = pc;
        Ok(())
    }

    /// Goes on at a place with other locals and another handler or none. The locals before are
    /// handed back.
    #[inline(always)]
    pub fn step_to(&mut self, pc: u32, locals: Frame, handler: Option<Handler>) -> Frame
        ensures new { self.new ≡ record self.old { pc = pc; locals = locals; handler = handler } }
        ensures was { result ≡ self.old.locals }
    {
        self.pc = pc;
        self.handler = handler;
        mem::replace(&mut self.locals, locals)
    }

    /// Stands at a place in a state, until a result comes for the local `into` and out values for
    /// the locals `outs`.
    #[inline(always)]
    pub fn stand(&mut self, pc: u32, into: u8, outs: Locals, state: InvState)
        ensures { self.new
            ≡ record self.old { pc = pc; into = into; outs = outs; state = state } }
    {
        self.pc = pc;
        self.into = into;
        self.outs = outs;
        self.state = state;
    }
}
