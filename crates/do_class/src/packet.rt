//! What messages hold: names of objects, copies and values.
ghost use Rattle.std.specs.Prelude.{◌≡◌, IfOk};

use crate::ids::ClassId;
use do_base::{ExactClone, ExactEq, Items, Oid, Text};
use std::alloc::AllocError;

/// An object that a message names, by whose it is.
#[derive(Clone, Copy, Debug, PartialEq, Eq)]
pub enum Name {
    /// An object of the sender.
    Mine {
        serial: u64,
        class: ClassId,
    },
    /// An object of the receiver.
    Yours {
        serial: u64,
    },
    /// An object of a third node, which the sender lends to the receiver under a token.
    Lent {
        oid: Oid,
        class: ClassId,
        token: u64,
    },
}

/// The objects that a message names, in order.
pub type NameList = Items<Name>;

/// A value inside a message, where an object is a place in the message's copies or names.
///
/// Clones are exact. The type itself keeps no limit on texts, lists, nesting or places.
#[derive(Debug, PartialEq, Eq, Drop)]
pub enum Part {
    /// Nil.
    Nil,
    /// A number.
    Num(i64),
    /// A text.
    Text(Text),
    /// The copied object at this place, from 0.
    Copy(u64),
    /// The named object at this place, from 0.
    Named(u64),
    /// A list of values.
    List(Parts),
}

/// Values inside a message, in order.
pub type Parts = Items<Part>;

/// An object that a message carries with its slots.
#[derive(Clone, Debug, PartialEq, Eq, Drop)]
pub struct Copied {
    /// The class of the object that is copied.
    pub class: ClassId,
    /// What its slots hold, in the order of the class.
    pub slots: Parts,
}

/// The objects that a message carries, in order.
pub type CopyList = Items<Copied>;

/// What a message holds.
///
/// The type itself keeps no limit on its lists, and no place in them is checked.
#[derive(Clone, Debug, PartialEq, Eq, Drop)]
pub struct Packet {
    /// The objects that the message names, in the order first met.
    pub names: NameList,
    /// The objects that the message copies, in the order first met.
    pub copies: CopyList,
    /// The values, in order.
    pub values: Parts,
}

/// An exact copy of a value inside a message. The calls go as deep as its lists nest.
#[cycle(copy)]
fn copy_part(part: &Part) -> Result<Part, AllocError>
    ensures { IfOk result (λ p. p ≡ part.now) }
{
    match part {
        Part::Nil => Ok(Part::Nil),
        Part::Num(n) => Ok(Part::Num(*n)),
        Part::Text(text) => Ok(Part::Text(text.clone()?)),
        Part::Copy(place) => Ok(Part::Copy(*place)),
        Part::Named(place) => Ok(Part::Named(*place)),
        Part::List(parts) => Ok(Part::List(copy_parts(parts)?)),
    }
}

#[cycle(copy)]
fn copy_parts(parts: &Parts) -> Result<Parts, AllocError>
    ensures { IfOk result (λ ps. ps ≡ parts.now) }
{
    let mut copies = Items::new(parts.allocator());
    for part in parts.as_slice() {
        copies.push(copy_part(part)?)?;
    }
    Ok(copies)
}

impl Clone for Part {
    ghost is_clone = { λ x y. y ≡ x };

    fn clone(&self) -> Result<Part, AllocError> {
        copy_part(self)
    }
}

impl ExactClone for Part {
    ghost exact_clone = { λ x y e. e };
}

impl ExactClone for Name {
    ghost use Rattle.std.proofs.Common.{rules};

    ghost exact_clone = { λ x y h. Prim.search rules };
}

impl ExactEq for Name {
    ghost use Rattle.std.proofs.Common.{rules};

    ghost exact_eq = { λ x y. Prim.search rules };
}

impl ExactClone for Copied {
    ghost use Rattle.std.proofs.Common.{rules};

    ghost exact_clone = { λ x y h. Prim.search rules };
}

impl ExactClone for Packet {
    ghost use Rattle.std.proofs.Common.{rules};

    ghost exact_clone = { λ x y h. Prim.search rules };
}
