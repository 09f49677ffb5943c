ghost use Rattle.std.specs.Prelude.{◌≡◌, ◌++◌, OnOk, map};
ghost use Rattle.do_sched.specs.Value.{object_name, value_text, between};

use do_base::{Oid, Text, Value, Values};
use do_grammar::{push_dec, push_int, push_quoted};
use std::alloc::AllocError;

/// Adds an object's name, `#PORT.SERIAL`.
pub fn push_object(out: &mut Text, object: &Oid) -> Result<(), AllocError>
    ensures { OnOk result (out.new ≡ out.old ++ object_name object.now) }
{
    out.push(b'#')?;
    push_dec(out, u64::from(object.node.port()))?;
    out.push(b'.')?;
    push_dec(out, object.serial)
}

/// Adds the spelling of a value. If memory runs out, a part of it may have been added.
#[cycle(value)]
pub fn push_value(out: &mut Text, value: &Value) -> Result<(), AllocError>
    ensures { OnOk result (out.new ≡ out.old ++ value_text value.now) }
{
    match value {
        Value::Nil => out.push_bytes(b"nil"),
        Value::Num(number) => push_int(out, *number),
        Value::Text(text) => push_quoted(out, text.as_slice()),
        Value::Obj(object) => push_object(out, object),
        Value::List(values) => {
            out.push(b'[')?;
            push_values(out, values)?;
            out.push(b']')
        }
    }
}

/// Adds values, with a space between each two.
#[cycle(value)]
fn push_values(out: &mut Text, values: &Values) -> Result<(), AllocError>
    ensures { OnOk result (out.new ≡ out.old ++ between (map value_text values.now)) }
{
    let [first, rest @ ..] = values.as_slice() else {
        return Ok(());
    };
    push_value(out, first)?;
    for value in rest {
        out.push(b' ')?;
        push_value(out, value)?;
    }
    Ok(())
}
