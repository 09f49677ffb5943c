//! How many names of objects stand in values.
ghost use Rattle.std.specs.Prelude.{◌≡◌, ◌≤◌, ◌^◌, MatchOption};
ghost use Rattle.do_part.specs.Names.{size_of, sizes_of};

use do_base::Value;

/// How many names of objects stand in a value. None only where there are 2^64 or more.
#[cycle(names)]
fn names_of(value: &Value) -> Option<u64>
    ensures { MatchOption result (2 ^ 64 ≤ size_of value.now) (λ names. names ≡ size_of value.now) }
{
    match value {
        Value::Obj(_) => Some(1),
        Value::List(values) => names_in(values.as_slice()),
        _ => Some(0),
    }
}

/// How many names of objects stand in values, each time counted: the room for names that they want.
/// None only where there are 2^64 or more.
#[cycle(names)]
pub fn names_in(values: &[Value]) -> Option<u64>
    ensures { MatchOption result (2 ^ 64 ≤ sizes_of values.now)
        (λ names. names ≡ sizes_of values.now) }
{
    let mut names: u64 = 0;
    for value in values {
        let more = names_of(value)?;
        names = names.checked_add(more)?;
    }
    Some(names)
}
