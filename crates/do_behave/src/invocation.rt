//! The local that a next answer goes to stands in an invocation also while it runs, and means
//! nothing then; going on leaves it. Behind its last instruction a method returns nil.

use crate::held::Frame;
use crate::moving::copied;
use do_base::{CallId, ExactClone, Exc, Locals, NodeId, Oid, Value, Values};
use do_class::MethodId;
use std::alloc::AllocError;

/// Where an invocation goes on after an exception, and the local that then holds its name.
#[derive(Clone, Copy, Debug, PartialEq, Eq)]
pub struct Handler {
    /// The local that then holds the exception's name.
    pub into: u8,
    /// The place at which the invocation goes on.
    pub pc: u32,
}

/// Why an invocation was begun, which says where its answer goes.
#[derive(Clone, Copy, Debug, PartialEq, Eq)]
pub enum Reason {
    /// From outside: the answer is shown.
    Start,
    /// By the invocation below it.
    Local,
    /// By a peer, which waits for the answer to its call of this number.
    Call { peer: NodeId, number: u64 },
    /// By a peer, which waits for nothing.
    Oneway { peer: NodeId },
}

/// How an invocation ended.
#[derive(Clone, Debug, Drop)]
pub enum Answer {
    /// With a result, and the values of the arguments that come out, in their order.
    Given { result: Value, outs: Values },
    /// With an exception.
    Raised(Exc),
}

/// What a waiting invocation asked a peer for.
#[derive(Clone, Copy, Debug, PartialEq, Eq)]
pub enum Waited {
    /// A method of an object of the peer.
    Method(MethodId),
    /// The peer's root.
    Root,
}

/// Whether an invocation goes on, and with what.
#[derive(Clone, Debug, Drop)]
pub enum InvState {
    /// Does its next act.
    Running,
    /// Waits for the invocation above it.
    Below,
    /// Waits for a peer's answer to a call.
    Waits {
        call: CallId,
        peer: NodeId,
        what: Waited,
    },
    /// Has an answer, which it uses in its next act.
    Answered(Answer),
}

/// A method at work on an object.
///
/// `pc` is its place in the method, from 0. The arguments are its first locals. `into` and `outs`
/// are the locals that a message's result and out values go to, once they come.
#[derive(Clone, Debug, Drop)]
pub struct Invocation {
    /// The object that the method works on.
    pub object: Oid,
    /// The method, of the object's class.
    pub method: MethodId,
    /// The place of the next act in the method, from 0.
    pub pc: u32,
    /// The locals, of which the first are the arguments.
    pub locals: Frame,
    /// Where an exception goes, if it is caught.
    pub handler: Option<Handler>,
    /// Why the invocation was begun, so where its answer goes.
    pub reason: Reason,
    /// The local that the result of what it asked for goes to.
    pub into: u8,
    /// The locals that the out values of what it asked for go to.
    pub outs: Locals,
    /// Whether it goes on, or what it waits for.
    pub state: InvState,
}

impl Invocation {
    ghost use Rattle.std.specs.{Prelude.{◌≡◌, IfOk}, Option.option_copied};
    ghost use Rattle.do_behave.specs.Steps.{local};

    /// What a local holds; none where there is no such local.
    pub fn local(&self, k: u8) -> Option<&Value>
        ensures { option_copied result ≡ local self.now k }
    {
        Some(self.locals.get(k as usize)?.value())
    }

    /// A copy of what a local holds; none where there is no such local.
    pub fn copy_local(&self, k: u8) -> Result<Option<Value>, AllocError>
        ensures { IfOk result (λ value. value ≡ local self.now k) }
    {
        match self.local(k) {
            Some(value) => Ok(Some(copied(value)?)),
            None => Ok(None),
        }
    }
}

impl ExactClone for Answer {
    ghost use Rattle.std.proofs.Common.{rules};

    ghost exact_clone = { λ x y h. Prim.search rules };
}

impl ExactClone for InvState {
    ghost use Rattle.std.proofs.Common.{rules};

    ghost exact_clone = { λ x y h. Prim.search rules };
}

impl ExactClone for Invocation {
    ghost use Rattle.std.proofs.Common.{rules};

    ghost exact_clone = { λ x y h. Prim.search rules };
}
