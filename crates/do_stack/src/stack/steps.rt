//! Steps of the top invocation that are taken most: to a place, and there with a local set.
ghost use Rattle.std.specs.Prelude.{◌≡◌, ◌<◌, Some, get_or, length, slice_get, slice_set};
ghost use Rattle.do_behave.specs.declared.invocation.Invocation.{Invocation};
ghost use Rattle.do_stack.specs.Waiting.{with_top};

use super::Stack;
use do_base::Value;

impl Stack {
    /// Sets a local of the top invocation, which goes on at a place. What the local held is handed
    /// back; where there is no such local none is set, and the value itself comes back.
    pub fn set_local(&mut self, into: u8, value: Value, pc: u32) -> Value
        requires { 0 < length self.old.invocations }
        ensures invocations { self.new.invocations ≡ with_top
            (λ i. record i { pc = pc; locals = slice_set i.locals into value })
            self.old.invocations }
        ensures was { (top : Invocation) → slice_get self.old.invocations 0 ≡ Some top
            → result ≡ get_or top.locals into value }
        ensures late { self.new.late ≡ self.old.late }
        ensures spare { self.new.spare ≡ self.old.spare }
    {
        self.invs[0].set_local(into, value, pc)
    }

    /// The top invocation goes on at a place.
    pub fn go_to(&mut self, pc: u32)
        requires { 0 < length self.old.invocations }
        ensures invocations { self.new.invocations
            ≡ with_top (λ i. record i { pc = pc }) self.old.invocations }
        ensures late { self.new.late ≡ self.old.late }
        ensures spare { self.new.spare ≡ self.old.spare }
    {
        self.invs[0].pc = pc;
    }
}
