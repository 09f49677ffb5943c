use do_base::{ExactClone, Items, Text};

/// A class, by its place in the table, from 0.
#[derive(Clone, Copy, Debug, PartialEq, Eq, PartialOrd, Ord, Hash)]
pub struct ClassId(pub u32);

/// A method, by its class and its place there, from 0.
#[derive(Clone, Copy, Debug, PartialEq, Eq, PartialOrd, Ord, Hash)]
pub struct MethodId {
    /// The class that the method is of.
    pub class: ClassId,
    /// Its place among the methods of the class, from 0.
    pub index: u32,
}

/// A slot of a class. What a `copy` slot holds is copied with an object that is passed bycopy.
#[derive(Debug, Drop)]
pub struct Slot {
    /// The slot's name, distinct within its class.
    pub name: Text,
    /// Whether what the slot holds is copied with its object.
    pub copy: bool,
}

/// The slots of a class, in order.
pub type Slots = Items<Slot>;

impl ExactClone for ClassId {
    ghost use Rattle.std.proofs.Common.{rules};

    ghost exact_clone = { λ x y h. Prim.search rules };
}
