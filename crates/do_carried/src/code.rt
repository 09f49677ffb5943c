//! The numbers and the texts of code.
ghost use Rattle.std.specs.List.{AllByRecursion};
ghost use Rattle.do_carried.specs.Ranged.{AreRanged, CodeIsRanged, CodesAreRanged, IsRanged};

use crate::ranges::{bytes_fit, number_fits};
use do_behave::{ClassCodes, Codes};
use do_script::{Code, Instruction};

/// The number of an instruction has 64 bits, and its text is of bytes.
fn instruction_is_ranged(instruction: &Instruction)
    ensures { IsRanged instruction.now }
{
    match instruction {
        Instruction::Number { number, .. } => number_fits(*number),
        Instruction::Text { text, .. } => bytes_fit(text.as_slice()),
        _ => {}
    }
}

/// So it is of each instruction of a method.
fn code_is_ranged(code: &Code)
    ensures { AreRanged code.now.instructions }
{
    for place in 0..code.len() {
        if let Some(instruction) = code.get(place) {
            instruction_is_ranged(instruction);
        }
    }
}

/// So it is of each method of a class.
fn class_is_ranged(codes: &ClassCodes)
    ensures { AllByRecursion CodeIsRanged codes.now }
{
    for code in codes.as_slice() {
        code_is_ranged(code);
    }
}

/// The numbers of all codes have 64 bits, and their texts are of bytes.
pub fn codes_are_ranged(codes: &Codes)
    ensures { CodesAreRanged codes.now }
{
    for of_class in codes.as_slice() {
        class_is_ranged(of_class);
    }
}
