#![tactic(auto, unfolding(crate::specs::Operands::instruction))]

ghost use Rattle.do_script.specs.declared.form.Form.TheVariants.{One, Two, Three, Number, Text};
ghost use Rattle.do_script.specs.declared.form.Form.TheVariants.{Get, Set, New, Send, Jump, IfNot};
ghost use Rattle.do_script.specs.declared.form.Form.TheVariants.{Catch};
ghost use Rattle.do_script.specs.Labels.{PlacesWithin, IsReading};

use crate::fault::{Kind, LineFault};
use crate::form::{Form, OneLocal, ThreeLocals, TwoLocals, with_one, with_three, with_two};
use crate::instruction::Instruction;
use crate::operands::{
    label_of, local_of, locals_of, no_word, number_of, one_word, selector_of, text_of, three_words,
    two_words,
};
use crate::vocabulary::{Vocabulary, class_of, slot_of, target_of};
use crate::words::{count_words, split_word};
use std::alloc::Global;

/// The instruction that a form makes of the words behind its name.
pub(crate) fn read_instruction(
    alloc: Global,
    form: Form,
    operands: &[u8],
    names: &Vocabulary<'_>,
) -> Result<Instruction, LineFault>
    requires { PlacesWithin names.now.labels }
    ensures { IsReading names.now form operands.now result }
{
    match form {
        Form::Nothing => Ok(no_word(operands, Instruction::EndCatch)?),
        Form::One(op) => read_one(op, operands, names),
        Form::Two(op) => read_two(op, operands, names),
        Form::Three(op) => read_three(op, operands, names),
        Form::Number => read_number(operands, names),
        Form::Text => read_text(alloc, operands, names),
        Form::Get => read_get(operands, names),
        Form::Set => read_set(operands, names),
        Form::New => read_new(operands, names),
        Form::Send => read_message(alloc, operands, names),
        Form::Jump => read_jump(operands, names),
        Form::IfNot => read_if_not(operands, names),
        Form::Catch => read_catch(operands, names),
    }
}

/// Instructions with one local.
fn read_one(op: OneLocal, operands: &[u8], names: &Vocabulary<'_>) -> Result<Instruction, LineFault>
    ensures { IsReading names.now (One op) operands.now result }
{
    let word = one_word(operands)?;
    Ok(with_one(op, local_of(word)?))
}

/// Instructions with two locals.
fn read_two(
    op: TwoLocals,
    operands: &[u8],
    names: &Vocabulary<'_>,
) -> Result<Instruction, LineFault>
    ensures { IsReading names.now (Two op) operands.now result }
{
    let (first, second) = two_words(operands)?;
    Ok(with_two(op, local_of(first)?, local_of(second)?))
}

/// Instructions with three locals.
fn read_three(
    op: ThreeLocals,
    operands: &[u8],
    names: &Vocabulary<'_>,
) -> Result<Instruction, LineFault>
    ensures { IsReading names.now (Three op) operands.now result }
{
    let (first, second, third) = three_words(operands)?;
    Ok(with_three(op, local_of(first)?, local_of(second)?, local_of(third)?))
}

/// `num D NUMBER`.
fn read_number(operands: &[u8], names: &Vocabulary<'_>) -> Result<Instruction, LineFault>
    ensures { IsReading names.now Number operands.now result }
{
    let (first, second) = two_words(operands)?;
    let number = number_of(second)?;
    Ok(Instruction::Number {
        into: local_of(first)?,
        number,
    })
}

/// `text D "TEXT"`.
fn read_text(
    alloc: Global,
    operands: &[u8],
    names: &Vocabulary<'_>,
) -> Result<Instruction, LineFault>
    ensures { IsReading names.now Text operands.now result }
{
    let (first, second) = two_words(operands)?;
    let text = text_of(alloc, second)?;
    Ok(Instruction::Text {
        into: local_of(first)?,
        text,
    })
}

/// `get D SLOT`.
fn read_get(operands: &[u8], names: &Vocabulary<'_>) -> Result<Instruction, LineFault>
    ensures { IsReading names.now Get operands.now result }
{
    let (first, second) = two_words(operands)?;
    let slot = slot_of(names, second)?;
    Ok(Instruction::Get {
        into: local_of(first)?,
        slot,
    })
}

/// `set SLOT S`.
fn read_set(operands: &[u8], names: &Vocabulary<'_>) -> Result<Instruction, LineFault>
    ensures { IsReading names.now Set operands.now result }
{
    let (first, second) = two_words(operands)?;
    let slot = slot_of(names, first)?;
    Ok(Instruction::Set {
        slot,
        from: local_of(second)?,
    })
}

/// `new D CLASS`.
fn read_new(operands: &[u8], names: &Vocabulary<'_>) -> Result<Instruction, LineFault>
    ensures { IsReading names.now New operands.now result }
{
    let (first, second) = two_words(operands)?;
    let class = class_of(names, second)?;
    Ok(Instruction::New {
        into: local_of(first)?,
        class,
    })
}

/// `send D T SELECTOR A..`, with one local for each colon.
fn read_message(
    alloc: Global,
    operands: &[u8],
    names: &Vocabulary<'_>,
) -> Result<Instruction, LineFault>
    ensures { IsReading names.now Send operands.now result }
{
    let Some((first, rest)) = split_word(operands) else {
        return Err(LineFault::Bad(Kind::Op));
    };
    let Some((second, rest)) = split_word(rest) else {
        return Err(LineFault::Bad(Kind::Op));
    };
    let Some((third, rest)) = split_word(rest) else {
        return Err(LineFault::Bad(Kind::Op));
    };
    let selector = selector_of(alloc, third, count_words(rest))?;
    let into = local_of(first)?;
    let target = local_of(second)?;
    let from = locals_of(alloc, rest)?;
    Ok(Instruction::Send {
        into,
        target,
        selector,
        from,
    })
}

/// `jump @L`.
fn read_jump(operands: &[u8], names: &Vocabulary<'_>) -> Result<Instruction, LineFault>
    requires { PlacesWithin names.now.labels }
    ensures { IsReading names.now Jump operands.now result }
{
    let name = label_of(one_word(operands)?)?;
    Ok(Instruction::Jump {
        to: target_of(names, name)?,
    })
}

/// `ifnot A @L`.
fn read_if_not(operands: &[u8], names: &Vocabulary<'_>) -> Result<Instruction, LineFault>
    requires { PlacesWithin names.now.labels }
    ensures { IsReading names.now IfNot operands.now result }
{
    let (first, second) = two_words(operands)?;
    let name = label_of(second)?;
    let test = local_of(first)?;
    Ok(Instruction::IfNot {
        test,
        to: target_of(names, name)?,
    })
}

/// `catch D @L`.
fn read_catch(operands: &[u8], names: &Vocabulary<'_>) -> Result<Instruction, LineFault>
    requires { PlacesWithin names.now.labels }
    ensures { IsReading names.now Catch operands.now result }
{
    let (first, second) = two_words(operands)?;
    let name = label_of(second)?;
    let into = local_of(first)?;
    Ok(Instruction::Catch {
        into,
        to: target_of(names, name)?,
    })
}
