use crate::item::Message;
use do_base::{Exc, Locals, NodeId, Oid, Text, Value, Values};
use do_behave::{Frame, Handler, Writes};
use do_class::{ClassId, MethodId};

/// A message that an invocation sends. `from` has the local of each argument.
#[derive(Drop)]
pub struct SendAct {
    /// What the message goes to.
    pub target: Value,
    /// The selector.
    pub selector: Text,
    /// The arguments, in order.
    pub args: Values,
    /// The local that takes the result.
    pub into: u8,
    /// The local of each argument, which takes its out value.
    pub from: Locals,
    /// The place at which the sender goes on.
    pub pc: u32,
}

/// What is asked of a peer.
#[derive(Drop)]
pub enum Request {
    /// Its root.
    Root,
    /// A method of an object of the peer.
    Call { method: MethodId, message: Message },
}

/// What the rules decide of the top invocation. `pc` is the place at which it goes on, `into` the
/// local that takes what comes, and `outs` those that take what comes out.
#[derive(Drop)]
pub enum Verdict {
    /// It goes on, with a value in a local.
    Goes {
        into: u8,
        value: Value,
        pc: u32,
    },
    /// It goes on with an answer.
    Uses {
        value: Value,
        outs: Values,
    },
    /// It goes on with other locals and another handler, and slots of its object are written.
    Steps {
        pc: u32,
        locals: Frame,
        handler: Option<Handler>,
        writes: Writes,
    },
    /// An object is made.
    Makes {
        class: ClassId,
        into: u8,
        pc: u32,
    },
    /// An own object or none becomes the root.
    Vends {
        root: Option<u64>,
        pc: u32,
    },
    /// A value is shown.
    Says {
        value: Value,
        pc: u32,
    },
    /// It waits for what is asked of a peer.
    Asks {
        peer: NodeId,
        request: Request,
        into: u8,
        outs: Locals,
        pc: u32,
    },
    /// It waits for a method of an own object.
    Begins {
        object: Oid,
        method: MethodId,
        values: Values,
        into: u8,
        outs: Locals,
        pc: u32,
    },
    /// It goes on, and a peer gets a message that nobody waits for.
    Tells {
        peer: NodeId,
        message: Message,
        into: u8,
        pc: u32,
    },
    /// It is popped, and gives a result and out values back.
    Returns {
        value: Value,
        outs: Values,
    },
    /// An exception goes to its handler, or ends it.
    Fails(Exc),
}
