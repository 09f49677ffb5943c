ghost use Rattle.std.specs.Prelude.{◌≡◌, ◌++◌, OnOk};
ghost use Rattle.do_sig.specs.Spelling.{outermost_spelling, qualifier_letters, letter_if};
ghost use Rattle.do_sig.specs.Spelling.{way_letters, passing_letters};

use crate::qualifiers::{Direction, Passing, Qualifiers};
use crate::types::spelling::push_type;
use crate::value_type::OutermostType;
use do_base::Text;
use std::alloc::AllocError;

/// Adds the spelling of an outermost type.
pub(crate) fn push_outermost(out: &mut Text, value_type: &OutermostType) -> Result<(), AllocError>
    ensures { OnOk result (out.new ≡ out.old ++ outermost_spelling value_type.now) }
{
    match value_type {
        OutermostType::Void => out.push(b'v'),
        OutermostType::Pointer(target) => {
            out.push(b'^')?;
            push_type(out, target)
        }
        OutermostType::Plain(plain) => push_type(out, plain),
    }
}

/// Adds a letter, if its qualifier is there.
fn push_if(out: &mut Text, marked: bool, letter: u8) -> Result<(), AllocError>
    ensures { OnOk result (out.new ≡ out.old ++ letter_if marked letter) }
{
    if marked {
        out.push(letter)?;
    }
    Ok(())
}

/// Adds the letter of a direction.
fn push_direction(out: &mut Text, direction: Direction) -> Result<(), AllocError>
    ensures { OnOk result (out.new ≡ out.old ++ way_letters direction) }
{
    match direction {
        Direction::Unmarked => Ok(()),
        Direction::In => out.push(b'n'),
        Direction::InOut => out.push(b'N'),
        Direction::Out => out.push(b'o'),
    }
}

/// Adds the letter of a way of passing.
fn push_passing(out: &mut Text, passing: Passing) -> Result<(), AllocError>
    ensures { OnOk result (out.new ≡ out.old ++ passing_letters passing) }
{
    match passing {
        Passing::Unmarked => Ok(()),
        Passing::ByCopy => out.push(b'O'),
        Passing::ByRef => out.push(b'R'),
    }
}

/// Adds the letters of the qualifiers, in the order `V r n N o O R`.
pub(crate) fn push_qualifiers(out: &mut Text, qualifiers: &Qualifiers) -> Result<(), AllocError>
    ensures { OnOk result (out.new ≡ out.old ++ qualifier_letters qualifiers.now) }
{
    push_if(out, qualifiers.oneway, b'V')?;
    push_if(out, qualifiers.constant, b'r')?;
    push_direction(out, qualifiers.direction)?;
    push_passing(out, qualifiers.passing)
}
