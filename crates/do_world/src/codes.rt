//! The codes of texts that have no fault.
ghost use Rattle.std.specs.Prelude.{◌≡◌, IfOk};
ghost use Rattle.do_script.specs.{Assembly.{HasNoFault, IsCodeOf, scope}, Program.program};
ghost use Rattle.do_world.specs.Worlds.{no_code};

use do_script::{AsmFault, Code, Names, assemble};
use std::alloc::{AllocError, Global};

/// The code of a text that has no fault, for the slots of its class and the classes of its world.
pub(crate) fn code_of(
    alloc: Global,
    text: &[u8],
    slots: &Names,
    classes: &Names,
) -> Result<Code, AllocError>
    requires { HasNoFault (scope slots.now classes.now text.now) (program text.now) }
    ensures { IfOk result (IsCodeOf slots.now classes.now text.now) }
{
    match assemble(alloc, text, slots, classes) {
        Ok(code) => Ok(code),
        Err(AsmFault::Memory) => Err(AllocError),
        Err(_) => unreachable!(),
    }
}

/// The code of a method of a native class, which has no instruction.
pub(crate) fn no_code(alloc: Global) -> Result<Code, AllocError>
    ensures { IfOk result (λ code. code ≡ no_code) }
{
    let none = Names::new(alloc);
    code_of(alloc, b"", &none, &none)
}
