//! What the rules decide of a run, with all that carrying it out needs.
use do_base::{Locals, NodeId, Value, Values};
use do_behave::Invocation;
use do_class::ClassId;
use do_machine::{Message, Request};
use do_rules::Delivery;

/// What the top invocation does, with all that this needs, so that it takes no memory any more.
#[derive(Drop)]
pub enum Plan {
    /// It goes on, with a value in a local: the name of an exception in that of a handler, too.
    Goes {
        /// The local.
        into: u8,
        /// The value.
        value: Value,
        /// The place at which it goes on.
        pc: u32,
    },
    /// It goes on with an answer.
    Uses {
        /// The result.
        value: Value,
        /// The values that come out, in their order.
        outs: Values,
    },
    /// An object is made.
    Makes {
        /// The class of the object.
        class: ClassId,
        /// The slots of the object.
        slots: Values,
        /// The local that takes its name.
        into: u8,
        /// The place at which it goes on.
        pc: u32,
    },
    /// An own object or none becomes the root.
    Vends {
        /// The serial of the object.
        root: Option<u64>,
        /// The place at which it goes on.
        pc: u32,
    },
    /// A value is shown.
    Says {
        /// The value.
        value: Value,
        /// The place at which it goes on.
        pc: u32,
    },
    /// It waits for what is asked of a peer.
    Asks {
        /// The peer.
        peer: NodeId,
        /// What is asked.
        request: Request,
        /// The local that takes the result.
        into: u8,
        /// The locals that take the values that come out.
        outs: Locals,
        /// The place at which it goes on then.
        pc: u32,
    },
    /// It waits for an invocation of an own object, which begins.
    Begins {
        /// The invocation.
        invocation: Invocation,
        /// The local that takes the result.
        into: u8,
        /// The locals that take the values that come out.
        outs: Locals,
        /// The place at which it goes on then.
        pc: u32,
    },
    /// It goes on, and a peer gets a message that nobody waits for.
    Tells {
        /// The peer.
        peer: NodeId,
        /// The message.
        message: Message,
        /// The local that takes nil.
        into: u8,
        /// The place at which it goes on.
        pc: u32,
    },
    /// It is popped, and its answer goes where it is waited for.
    Delivers {
        /// The answer, and where it goes.
        delivery: Delivery,
    },
}
