//! The method language: the instructions of a method's code, and the assembler that reads them
//! from text.
//!
//! Jump targets, slots and classes are counted as `usize`. One word in quotes is a quoted text
//! in its one spelling; other bytes between quotes are plain words. Where two slots or classes
//! have one name, the first is meant.
#![tactic(auto)]

mod assembler;
mod code;
mod fault;
mod form;
mod instruction;
mod instruction_names;
mod instruction_reader;
mod labels;
mod operands;
mod statement;
mod vocabulary;
mod words;

pub use assembler::{Names, assemble};
pub use code::Code;
pub use fault::AsmFault;
pub use instruction::Instruction;
