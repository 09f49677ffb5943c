//! Programs of one method, from its text.

ghost use Rattle.std.specs.Prelude.{◌≡◌, ◌<◌, [], ◌∷◌, ◌++◌, length, OnOk};

use crate::scripts::names::names;
use do_base::Text;
use do_behave::{ClassCodes, Codes, Program};
use do_class::{ClassTable, Methods, Slots};
use do_script::{Code, assemble};
use std::alloc::{AllocError, Global};
use std::test::Fail;

/// Adds a class of a name, which has nothing.
fn add_empty(alloc: Global, table: &mut ClassTable, name: &[u8]) -> Result<(), Fail>
    requires { length table.old < 256 }
    ensures { OnOk result (table.new
        ≡ table.old ++ record { name = name.now; slots = []; methods = [] } ∷ []) }
{
    let name = Text::from_slice(alloc, name)?;
    table.add_class(name, Slots::new(alloc), Methods::new(alloc))?;
    Ok(())
}

/// Two classes, `First` and `Second`, of which a program needs to know that they are there.
pub(crate) fn two_classes(alloc: Global) -> Result<ClassTable, Fail> {
    let mut table = ClassTable::new(alloc);
    add_empty(alloc, &mut table, b"First")?;
    add_empty(alloc, &mut table, b"Second")?;
    Ok(table)
}

/// The code of a method's text: its slots are `a`, `b` and `c`, its classes `First` and `Second`.
fn code_of(alloc: Global, text: &[u8]) -> Result<Code, Fail> {
    let slots = names(alloc, &[b"a", b"b", b"c"])?;
    let classes = names(alloc, &[b"First", b"Second"])?;
    Ok(assemble(alloc, text, &slots, &classes)?)
}

/// A program of one method of the first class.
pub(crate) fn program_of(alloc: Global, table: &ClassTable, text: &[u8]) -> Result<Program, Fail> {
    let first = vec![in alloc; code_of(alloc, text)?]?;
    let codes = vec![in alloc; ClassCodes::from_vec(first)]?;
    Ok(Program::new(table, Codes::from_vec(codes)))
}

/// The text of a method with an instruction at place 3 of six; `@back` is place 1, `@on` is 5 and
/// `@end` is 6.
pub(crate) fn text_around(alloc: Global, line: &[u8]) -> Result<Text, AllocError> {
    let mut text = Text::from_slice(alloc, b"nil l2\n@back\nnil l2\nnil l2\n")?;
    text.push_bytes(line)?;
    text.push_bytes(b"\nnil l2\n@on\nnil l2\n@end")?;
    Ok(text)
}
