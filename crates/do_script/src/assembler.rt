ghost use Rattle.std.specs.Prelude.{◌≡◌, ◌+◌, ◌++◌, ◌<◌, ◌≤◌, ◌^◌, All, length, IfOk, IfErr};
ghost use Rattle.std.specs.{Prelude.{IfSome, OnOk, ℕ, ◌⊎◌, IsErrAnd}, Option.option_to_list};
ghost use Rattle.do_script.specs.{Fault.Reads, Words.words, Labels.{scope_in, PlacesWithin}};
ghost use Rattle.do_script.specs.{Labels.IsInScope, Program.{program, statement_of, made, size}};
ghost use Rattle.do_script.specs.Assembly.{IsCode, IsCodeOf, IsFault, scope, HasNoFault};
ghost use Rattle.do_script.specs.Assembly.{IsFirstFault, refusal};

use crate::code::Code;
use crate::fault::{AsmFault, Kind, LineFault, answer_to};
use crate::instruction::Instruction;
use crate::instruction_names::form_named;
use crate::instruction_reader::read_instruction;
use crate::labels::{find_label, labels_of};
use crate::statement::{Said, said_in};
use crate::vocabulary::Vocabulary;
use do_base::Texts;
use do_grammar::line_of;
use std::alloc::{AllocError, Global};

/// The names of a class's slots, or of the classes of a world, each by its place.
pub type Names = Texts;

/// The instruction of a line, if it has one, at a line and behind so many instructions.
fn read_line(
    alloc: Global,
    line: &[u8],
    number: usize,
    before: usize,
    names: &Vocabulary<'_>,
) -> Result<Option<Instruction>, LineFault>
    requires { PlacesWithin names.now.labels }
    ensures value { Reads option_to_list result
        (made (scope_in names.now) number before (statement_of (words line.now))) }
    ensures within { IfOk result (λ made. IfSome made (IsInScope names.now)) }
{
    match said_in(line) {
        Said::Nothing => Ok(None),
        Said::NoLabel => Err(LineFault::Bad(Kind::Op)),
        Said::Label(name) => match find_label(&names.labels, name) {
            Some(label) if label.line == number => Ok(None),
            _ => Err(LineFault::Bad(Kind::Jump)),
        },
        Said::Instruction(name, operands) => {
            if before >= 4096 {
                return Err(LineFault::Bad(Kind::Long));
            }
            let Some(form) = form_named(name) else {
                return Err(LineFault::Bad(Kind::Op));
            };
            Ok(Some(read_instruction(alloc, form, operands, names)?))
        }
    }
}

/// Adds the instruction of a line, if it has one.
fn push_made(code: &mut Vec<Instruction>, made: Option<Instruction>) -> Result<(), AllocError>
    ensures { OnOk result (code.new.items ≡ code.old.items ++ option_to_list made) }
{
    if let Some(instruction) = made {
        code.push(instruction)?;
    }
    Ok(())
}

/// The instructions of a text.
fn read_lines(
    alloc: Global,
    text: &[u8],
    names: &Vocabulary<'_>,
) -> Result<Vec<Instruction>, AsmFault>
    requires { PlacesWithin names.now.labels }
    ensures code { IfOk result (λ code. IsCode (scope_in names.now) (program text.now) code.items) }
    ensures size { IfOk result (λ code. length code.items ≡ size (program text.now)) }
    ensures short { IfOk result (λ code. length code.items ≤ 4096) }
    ensures within { IfOk result (λ code. All (IsInScope names.now) code.items) }
    ensures fault { IfErr result (IsFault (scope_in names.now) (program text.now)) }
{
    let mut code = Vec::new(alloc);
    let mut rest = text;
    let mut number = 0;
    while let Some((line, _, more)) = line_of(rest) {
        let made = match read_line(alloc, line, number, code.len(), names) {
            Ok(made) => made,
            Err(fault) => return Err(answer_to(fault, number)),
        };
        push_made(&mut code, made)?;
        number += 1;
        rest = more;
    }
    Ok(code)
}

/// The code that a method's text makes, for the slots of its class and the classes of its world.
///
/// A line has words with one or more spaces between them; a text in quotes is one word, and spaces
/// in front of the first word and behind the last one count for nothing. A line without words, or
/// whose first word begins with `;`, is passed over. `@NAME` alone on a line is a label: it stands
/// for the next instruction, or for the end. Every other line is an instruction, of which there are
/// at most 4,096; `Instruction` shows how each is written. The text behind the last line feed is a
/// line too.
///
/// `D`, `S`, `A`, `B`, `T`, `P` and `I` are locals, `l0` to `l15`. A text has at most
/// `LONGEST_TEXT` bytes.
/// A slot or a class is the first of its name. A label may be defined behind the jump that names
/// it, and each has one definition.
///
/// A text with no faulty line is code. A text with a faulty line is refused with the first such
/// line and what is wrong with it. Either may end with `AsmFault::Memory` in place of that answer,
/// if memory runs out.
pub fn assemble<'a>(
    alloc: Global,
    text: &'a [u8],
    slots: &'a Names,
    classes: &'a Names,
) -> Result<Code, AsmFault>
    ensures code { IfOk result (IsCodeOf slots.now classes.now text.now) }
    ensures fault { IfErr result
        (IsFault (scope slots.now classes.now text.now) (program text.now)) }
    ensures accepted { HasNoFault (scope slots.now classes.now text.now) (program text.now)
        → IfErr result (λ fault. fault ≡ AsmFault.Memory) }
    ensures refused { (line : ℕ) (kind : Kind)
        → IsFirstFault (scope slots.now classes.now text.now) (program text.now) line kind
        → IsErrAnd result (λ fault. (fault ≡ AsmFault.Memory) ⊎ (fault ≡ refusal kind line)) }
{
    read_code(alloc, text, slots, classes)
}

/// The code that a text makes, or its first fault.
fn read_code<'a>(
    alloc: Global,
    text: &'a [u8],
    slots: &'a Names,
    classes: &'a Names,
) -> Result<Code, AsmFault>
    ensures code { IfOk result (IsCodeOf slots.now classes.now text.now) }
    ensures fault { IfErr result
        (IsFault (scope slots.now classes.now text.now) (program text.now)) }
{
    let labels = labels_of(alloc, text)?;
    let names = Vocabulary {
        slots,
        classes,
        labels,
    };
    let instructions = read_lines(alloc, text, &names)?;
    Ok(Code::new(instructions, slots.len(), classes.len()))
}
