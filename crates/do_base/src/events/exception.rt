//! Exceptions.
use crate::lists::exact::{ExactClone, ExactEq};
use crate::values::text::Text;

/// An exception, which an invocation raises and a handler catches.
///
/// A call of a distributed object raises at the caller what was raised at the object, as Apple's
/// Distributed Objects Programming Topics has it. The names are this project's own.
#[derive(Clone, Debug, PartialEq, Eq, Drop)]
pub enum Exc {
    /// A value is not of the type that stands at its place. Its name is `Type`.
    TypeFault,
    /// A number or a size is out of its range.
    Range,
    /// The node has as many invocations as it may have: 256.
    Deep,
    /// The object's class has no method of that selector.
    NotUnderstood,
    /// The connection to the object's node is closed.
    ConnectionDied,
    /// The foreign object is not held by this node.
    NotVended,
    /// The message has more copied objects than a message may have, or weighs more. This type sets
    /// no limit.
    TooLarge,
    /// Raised by a method, with a text of its own.
    User(Text),
    /// The call was given up before its answer came.
    TimedOut,
}

impl ExactClone for Exc {
    ghost use Rattle.std.proofs.Common.{rules};

    ghost exact_clone = { λ x y h. Prim.search rules };
}

impl ExactEq for Exc {
    ghost use Rattle.std.{proofs.Common.rules, specs.Cmp.Lexicographic.bytes_decides};

    ghost exact_eq = { λ x y. Prim.search (rules, bytes_decides) };
}
