ghost use Rattle.std.specs.Prelude.{◌≡◌, ℕ, ◌<◌};
ghost use Rattle.do_script.specs.{Listing.IsWithin, Operands.{with_one, with_two, with_three}};

use crate::instruction::Instruction;

/// An instruction with one local.
#[derive(Clone, Copy, Debug)]
pub(crate) enum OneLocal {
    Nil,
    Own,
    List,
    Vend,
    Say,
    Return,
    Raise,
}

/// An instruction with two locals.
#[derive(Clone, Copy, Debug)]
pub(crate) enum TwoLocals {
    Move,
    Push,
    Count,
    Root,
}

/// An instruction with three locals.
#[derive(Clone, Copy, Debug)]
pub(crate) enum ThreeLocals {
    Add,
    Subtract,
    Multiply,
    Less,
    Same,
    Item,
}

/// An instruction, by the form of its operands.
#[derive(Clone, Copy, Debug)]
pub(crate) enum Form {
    Nothing,
    One(OneLocal),
    Two(TwoLocals),
    Three(ThreeLocals),
    Number,
    Text,
    Get,
    Set,
    New,
    Send,
    Jump,
    IfNot,
    Catch,
}

/// The instruction with one local.
pub(crate) fn with_one(op: OneLocal, local: u8) -> Instruction
    requires { local < 16 }
    ensures value { result ≡ with_one op local }
    ensures within { (slots classes len : ℕ) → IsWithin slots classes len result }
{
    match op {
        OneLocal::Nil => Instruction::Nil { into: local },
        OneLocal::Own => Instruction::Own { into: local },
        OneLocal::List => Instruction::List { into: local },
        OneLocal::Vend => Instruction::Vend { value: local },
        OneLocal::Say => Instruction::Say { value: local },
        OneLocal::Return => Instruction::Return { value: local },
        OneLocal::Raise => Instruction::Raise { value: local },
    }
}

/// The instruction with two locals.
pub(crate) fn with_two(op: TwoLocals, into: u8, from: u8) -> Instruction
    requires first { into < 16 }
    requires second { from < 16 }
    ensures value { result ≡ with_two op into from }
    ensures within { (slots classes len : ℕ) → IsWithin slots classes len result }
{
    match op {
        TwoLocals::Move => Instruction::Move { into, from },
        TwoLocals::Push => Instruction::Push {
            list: into,
            item: from,
        },
        TwoLocals::Count => Instruction::Count { into, of: from },
        TwoLocals::Root => Instruction::Root { into, port: from },
    }
}

/// The instruction with three locals.
pub(crate) fn with_three(op: ThreeLocals, into: u8, left: u8, right: u8) -> Instruction
    requires first { into < 16 }
    requires second { left < 16 }
    requires third { right < 16 }
    ensures value { result ≡ with_three op into left right }
    ensures within { (slots classes len : ℕ) → IsWithin slots classes len result }
{
    match op {
        ThreeLocals::Add => Instruction::Add { into, left, right },
        ThreeLocals::Subtract => Instruction::Subtract { into, left, right },
        ThreeLocals::Multiply => Instruction::Multiply { into, left, right },
        ThreeLocals::Less => Instruction::Less { into, left, right },
        ThreeLocals::Same => Instruction::Same { into, left, right },
        ThreeLocals::Item => Instruction::Item {
            into,
            list: left,
            index: right,
        },
    }
}
