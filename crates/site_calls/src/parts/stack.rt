//! Calls of a stack of invocations.

mod changes;
mod exchanges;
mod invocations;
mod waiting;

use crate::parts::arguments::{amount_at, node_at};
use crate::parts::stack::changes::{Script, act, replace_locals, set_locals};
use crate::parts::stack::invocations::{invocation_or_nil, local_or_nil};
use crate::parts::stack::waiting::{abandon, give, late, raise, take_answer, wait, waiting};
use call_rows::{
    Part, begun, call_of, copy_at, count_at, count_value, local_at, no_call, value_at,
};
use do_base::{Oid, Value, Values};
use do_behave::Invocation;
use do_native_acts::{as_number, show_list};
use do_stack::{Stack, objects_named};
use std::alloc::Global;
use std::test::Fail;

/// What a row calls.
#[derive(Clone, Copy)]
enum Call {
    New,
    Reserve,
    HasRoom,
    Push,
    Pop,
    Fill,
    Code,
    Act,
    SetLocals,
    ReplaceLocals,
    Abandon,
    TakeAnswer,
    FailPeer,
    Wait,
    Waiting,
    Give,
    Raise,
    Late,
    Depth,
    Top,
    At,
    Local,
    ObjectsNamed,
}

/// The words of the calls.
const CALLS: [(&[u8], Call); 23] = [
    (b"new", Call::New),
    (b"reserve", Call::Reserve),
    (b"has_room", Call::HasRoom),
    (b"push", Call::Push),
    (b"pop", Call::Pop),
    (b"fill", Call::Fill),
    (b"code", Call::Code),
    (b"act", Call::Act),
    (b"set_locals", Call::SetLocals),
    (b"replace_locals", Call::ReplaceLocals),
    (b"abandon", Call::Abandon),
    (b"take_answer", Call::TakeAnswer),
    (b"fail_peer", Call::FailPeer),
    (b"wait", Call::Wait),
    (b"waiting", Call::Waiting),
    (b"give", Call::Give),
    (b"raise", Call::Raise),
    (b"late", Call::Late),
    (b"depth", Call::Depth),
    (b"top", Call::Top),
    (b"at", Call::At),
    (b"local", Call::Local),
    (b"objects_named", Call::ObjectsNamed),
];

/// A stack, and the code that its invocations run.
#[derive(Drop)]
pub(crate) struct StackCalls {
    stack: Stack,
    script: Script,
    alloc: Global,
}

/// Puts an invocation on top, and tells whether it did: there are fewer than 256, and memory.
fn put(stack: &mut Stack, inv: Invocation) -> bool {
    stack.depth() < 256 && stack.push(inv).is_ok()
}

/// Puts an invocation on top whose first two locals hold values, and tells whether it did.
fn push(alloc: Global, stack: &mut Stack, first: Value, second: Value) -> Result<bool, Fail> {
    let inv = begun(alloc, first, second)?;
    Ok(put(stack, inv))
}

/// Puts as many invocations on top, and tells how many it did.
fn fill(alloc: Global, stack: &mut Stack, args: &Values) -> Result<Value, Fail> {
    let mut pushed: i64 = 0;
    for number in 0..count_at(args, 0)? {
        if push(alloc, stack, Value::Num(i64::from(number)), Value::Nil)? {
            pushed = pushed.saturating_add(1);
        }
    }
    Ok(Value::Num(pushed))
}

impl StackCalls {
    /// An empty stack.
    pub(crate) fn new(alloc: Global) -> Result<StackCalls, Fail> {
        let script = Script::new(alloc)?;
        Ok(StackCalls {
            stack: Stack::new(alloc),
            script,
            alloc,
        })
    }

    /// Begins anew with an empty stack.
    fn begin(&mut self) -> Value {
        self.stack = Stack::new(self.alloc);
        Value::Nil
    }

    /// Makes room for more invocations.
    fn reserve(&mut self, args: &Values) -> Result<Value, Fail> {
        self.stack.reserve(amount_at(args, 0)?)?;
        Ok(Value::Nil)
    }

    /// Whether there is room for more invocations.
    fn has_room(&self, args: &Values) -> Result<Value, Fail> {
        let more = amount_at(args, 0)?;
        Ok(as_number(self.stack.spare() >= more))
    }

    /// Puts an invocation with two values on top, and tells whether it did.
    fn push(&mut self, args: &Values) -> Result<Value, Fail> {
        let first = copy_at(args, 0)?;
        let pushed = push(self.alloc, &mut self.stack, first, copy_at(args, 1)?)?;
        Ok(as_number(pushed))
    }

    /// Takes the top off, and shows it.
    fn pop(&mut self) -> Result<Value, Fail> {
        let top = self.stack.pop();
        invocation_or_nil(self.alloc, top.as_ref())
    }

    /// Takes lines for the code of the method that runs.
    fn set_code(&mut self, args: &Values) -> Result<Value, Fail> {
        self.script.set(args)?;
        Ok(Value::Nil)
    }

    /// Ends all calls to a peer.
    fn fail_peer(&mut self, args: &Values) -> Result<Value, Fail> {
        let peer = node_at(args, 0)?;
        self.stack.fail_peer(peer);
        Ok(Value::Nil)
    }

    /// The invocation at a place, or nil.
    fn at(&self, args: &Values) -> Result<Value, Fail> {
        let at = usize::from(count_at(args, 0)?);
        invocation_or_nil(self.alloc, self.stack.at(at))
    }

    /// A local of the top, or nil.
    fn local(&self, args: &Values) -> Result<Value, Fail> {
        let local = local_at(args, 0)?;
        local_or_nil(self.stack.top(), local)
    }

    /// The objects that a value names.
    fn objects_named(&self, args: &Values) -> Result<Value, Fail> {
        let value = value_at(args, 0)?;
        Ok(show_list::<Oid>(&objects_named(self.alloc, value)?)?)
    }
}

impl Part for StackCalls {
    fn call(&mut self, word: &[u8], args: &Values) -> Result<Value, Fail> {
        let (alloc, stack) = (self.alloc, &mut self.stack);
        match call_of(&CALLS, word) {
            Some(Call::New) => Ok(self.begin()),
            Some(Call::Reserve) => self.reserve(args),
            Some(Call::HasRoom) => self.has_room(args),
            Some(Call::Push) => self.push(args),
            Some(Call::Pop) => self.pop(),
            Some(Call::Fill) => fill(alloc, stack, args),
            Some(Call::Code) => self.set_code(args),
            Some(Call::Act) => act(alloc, stack, &self.script),
            Some(Call::SetLocals) => set_locals(alloc, stack, args),
            Some(Call::ReplaceLocals) => replace_locals(alloc, stack, args),
            Some(Call::Abandon) => abandon(stack),
            Some(Call::TakeAnswer) => take_answer(alloc, stack),
            Some(Call::FailPeer) => self.fail_peer(args),
            Some(Call::Wait) => wait(stack, args),
            Some(Call::Waiting) => waiting(alloc, stack, args),
            Some(Call::Give) => give(stack, args),
            Some(Call::Raise) => raise(stack, args),
            Some(Call::Late) => late(stack, args),
            Some(Call::Depth) => count_value(stack.depth()),
            Some(Call::Top) => invocation_or_nil(alloc, stack.top()),
            Some(Call::At) => self.at(args),
            Some(Call::Local) => self.local(args),
            Some(Call::ObjectsNamed) => self.objects_named(args),
            None => no_call(),
        }
    }
}
