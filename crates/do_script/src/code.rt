ghost use Rattle.std.specs.Prelude.{◌≡◌, ◌≤◌, length, slice_get, [], ◌↔◌, IsTrue, IfSome};
ghost use Rattle.std.specs.Option.{option_copied};

use crate::instruction::Instruction;
use std::marker::Model;

/// The code of a method, in which every local, slot, class and place to go on at is there.
///
/// It has at most 4,096 instructions, is made by `assemble` alone, and never changes, so what runs
/// it tests none of this again.
#[derive(Debug, Drop)]
pub struct Code {
    instructions: Vec<Instruction>,
    slots: usize,
    classes: usize,
}

impl Model for Code {
    ghost use Rattle.do_script.specs.Listing.{Listing, IsValid};

    ghost Value = { Listing };

    ghost view = { λ c.
        record { instructions = c.instructions.items; slots = c.slots; classes = c.classes } };

    ghost invariant = { λ c. IsValid
        (record { instructions = c.instructions.items; slots = c.slots; classes = c.classes }) };
}

impl Code {
    ghost use Rattle.do_script.specs.Listing.{IsValid, IsWithin};

    /// The code of these instructions.
    pub(crate) fn new(instructions: Vec<Instruction>, slots: usize, classes: usize) -> Code
        requires { IsValid
            (record { instructions = instructions.items; slots = slots; classes = classes }) }
        ensures { result
            ≡ record { instructions = instructions.items; slots = slots; classes = classes } }
    {
        Code {
            instructions,
            slots,
            classes,
        }
    }

    /// The instruction at a place, counted from 0. There is none at the end or behind it.
    pub fn get(&self, place: usize) -> Option<&Instruction>
        ensures value { option_copied result ≡ slice_get self.now.instructions place }
        ensures short { length self.now.instructions ≤ 4096 }
        ensures within { IfSome result (λ i. IsWithin
            self.now.slots self.now.classes (length self.now.instructions) i.now) }
    {
        self.instructions.get(place)
    }

    /// How many instructions there are, at most 4,096.
    pub fn len(&self) -> usize
        ensures value { result ≡ length self.now.instructions }
        ensures short { result ≤ 4096 }
        ensures valid { IsValid self.now }
    {
        self.instructions.len()
    }

    /// Whether there is no instruction.
    pub fn is_empty(&self) -> bool
        ensures { IsTrue result ↔ (self.now.instructions ≡ []) }
    {
        self.instructions.is_empty()
    }

    /// How many slots the class of the method has.
    pub fn slots(&self) -> usize
        ensures { result ≡ self.now.slots }
    {
        self.slots
    }

    /// How many classes the code can name.
    pub fn classes(&self) -> usize
        ensures { result ≡ self.now.classes }
    {
        self.classes
    }
}
