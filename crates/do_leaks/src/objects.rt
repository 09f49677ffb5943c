//! The objects that values name.
ghost use Rattle.std.specs.{Prelude.{◌≡◌, ◌++◌, IfOk, OnOk}, List.flat_map};
ghost use Rattle.do_base.specs.values.Values.{objects_of};
ghost use Rattle.do_leaks.specs.Heap.{names_in};

use do_base::{Oids, Value, Values};
use do_trace::ObjLine;
use std::alloc::AllocError;

/// Appends the objects in a value. The calls go as deep as its lists nest.
///
/// If memory runs out, some of them may have been appended.
#[cycle(objects)]
#[tactic(auto, using(do_base::proofs::ObjectsOfLists::object_steps))]
pub fn push_objects(objects: &mut Oids, value: &Value) -> Result<(), AllocError>
    ensures { OnOk result (objects.new ≡ objects.old ++ objects_of value.now) }
{
    match value {
        Value::Obj(object) => objects.push(*object),
        Value::List(values) => push_all_objects(objects, values),
        _ => Ok(()),
    }
}

/// Appends the objects in values, one after another.
///
/// If memory runs out, some of them may have been appended.
#[cycle(objects)]
#[tactic(auto, using(do_base::proofs::ObjectsOfLists::object_steps))]
pub fn push_all_objects(objects: &mut Oids, values: &Values) -> Result<(), AllocError>
    ensures { OnOk result (objects.new ≡ objects.old ++ flat_map objects_of values.now) }
{
    for value in values.as_slice() {
        push_objects(objects, value)?;
    }
    Ok(())
}

/// The objects that the slots of an object name.
pub(crate) fn names_in(line: &ObjLine) -> Result<Oids, AllocError>
    ensures { IfOk result (λ os. os ≡ names_in line.now) }
{
    let mut objects = Oids::new(line.slots.allocator());
    push_all_objects(&mut objects, &line.slots)?;
    Ok(objects)
}
