//! What a step shows.
use crate::events::exception::Exc;
use crate::lists::exact::{ExactClone, ExactEq};
use crate::lists::items::Items;
use crate::names::node::Oid;
use crate::values::text::Text;
use crate::values::value::Value;

/// An item as it is taken from a queue. The form is this project's own.
#[derive(Clone, Debug, PartialEq, Eq, Drop)]
pub enum Took {
    /// A call of the method with that selector, which waits for an answer.
    Call(Text),
    /// A call of the method with that selector, which waits for none.
    Oneway(Text),
    /// The result of a call.
    Reply,
    /// The exception that a call ended with.
    Raised(Exc),
    /// A question for the node's root.
    RootAsk,
    /// The root, in answer to that question.
    RootAnswer,
    /// A question to the object's home whether the sender may hold it, since a third node named it.
    Ask(Oid),
    /// Such a question was granted.
    Granted(Oid),
    /// Such a question was refused, since the object is gone.
    Gone(Oid),
    /// The sender holds the object no more.
    Left(Oid),
    /// A loan of an object's name is over.
    Settled,
    /// The sender closed its end.
    End,
}

/// A line of what a step shows. The form is this project's own.
#[derive(Clone, Debug, PartialEq, Eq, Drop)]
pub enum Shown {
    /// An item was taken from a queue.
    Took(Took),
    /// A method said a value.
    Say(Value),
    /// An invocation that a start made returned a value.
    Return(Value),
    /// An invocation that nobody waits for ended by an exception.
    Raise(Exc),
    /// An object that nothing names any more was freed.
    Free(Oid),
}

/// What steps show, in order.
pub type ShownList = Items<Shown>;

impl ExactClone for Took {
    ghost use Rattle.std.proofs.Common.{rules};

    ghost exact_clone = { λ x y h. Prim.search rules };
}

impl ExactClone for Shown {
    ghost use Rattle.std.proofs.Common.{rules};

    ghost exact_clone = { λ x y h. Prim.search rules };
}

impl ExactEq for Took {
    ghost use Rattle.std.{proofs.Common.rules, specs.Cmp.Lexicographic.bytes_decides};

    ghost exact_eq = { λ x y. Prim.search (rules, bytes_decides) };
}

impl ExactEq for Shown {
    ghost use Rattle.std.{proofs.Common.rules, specs.Cmp.Lexicographic.bytes_decides};
    ghost use Rattle.do_base.specs.values.Equal.{value_eq-Decides};

    ghost exact_eq = { λ x y. Prim.search (rules, bytes_decides, value_eq-Decides) };
}
