ghost use Rattle.std.specs.{Prelude.{◌≡◌, ◌++◌, map, OnOk}, List.flat_map};
ghost use Rattle.do_sig.specs.Types.{type_spelling};

use crate::letters::letter_of;
use crate::value_type::ValueType;
use do_base::{Items, Text};
use do_grammar::push_dec;
use std::alloc::AllocError;

/// Adds the spelling of a type.
#[cycle(print)]
pub(crate) fn push_type(out: &mut Text, value_type: &ValueType) -> Result<(), AllocError>
    ensures { OnOk result (out.new ≡ out.old ++ type_spelling value_type.now) }
{
    match value_type {
        ValueType::Simple(scalar) => out.push(letter_of(*scalar)),
        ValueType::Array(count, item) => {
            out.push(b'[')?;
            push_dec(out, u64::from(*count))?;
            push_type(out, item.get())?;
            out.push(b']')
        }
        ValueType::Structure(name, members) => {
            out.push(b'{')?;
            out.push_bytes(name.as_slice())?;
            out.push(b'=')?;
            push_members(out, members)?;
            out.push(b'}')
        }
    }
}

/// Adds the spellings of a structure's types.
#[cycle(print)]
fn push_members(out: &mut Text, members: &Items<ValueType>) -> Result<(), AllocError>
    ensures { OnOk result (out.new ≡ out.old ++ flat_map (λ m. m) (map type_spelling members.now)) }
{
    for member in members.as_slice() {
        push_type(out, member)?;
    }
    Ok(())
}
