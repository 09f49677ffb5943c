//! An invocation as it begins, and objects as they are made.
ghost use Rattle.std.specs.Prelude.{◌≡◌, ◌≤◌, ◌+◌, ◌++◌, ◌-◌, ◌∷◌, [], IfOk, OnOk, length};
ghost use Rattle.std.specs.Prelude.{replicate, vec_capacity, vec_len};
ghost use Rattle.do_machine.specs.run.Fresh.{blank, fresh, pushed, with_objects, with_serials};

use crate::effect::Done;
use crate::lists::one;
use do_base::{Items, Locals, Oid, Value, Values, copy_value};
use do_behave::{Frame, Held, InvState, Invocation, Reason};
use do_class::{ClassId, ClassTable, MethodId};
use do_machine::{Heap, Node, Shared, Stored};
use do_packet::{Made, ObjList};
use std::alloc::{AllocError, Global};

/// How many locals an invocation has.
const LOCALS: usize = 16;

/// Adds values as locals, in room that was made before.
fn add_values(locals: &mut Vec<Held>, values: &Values) -> Done
    requires { vec_len locals.old + length values.now ≤ vec_capacity locals.old }
    ensures items { OnOk result (locals.new.items ≡ locals.old.items ++ values.now) }
    ensures count { OnOk result (vec_len locals.new ≡ vec_len locals.old + length values.now) }
    ensures room { OnOk result (vec_capacity locals.new ≡ vec_capacity locals.old) }
{
    for value in values.as_slice() {
        locals.push_reserved(Held::new(copy_value(value)?));
    }
    Ok(())
}

/// Adds so many nils as locals, in room that was made before.
#[tactic(auto, using(crate::proofs::Padding::nil_steps))]
fn add_nils(locals: &mut Vec<Held>, count: usize)
    requires { vec_len locals.old + count ≤ vec_capacity locals.old }
    ensures { locals.new.items ≡ locals.old.items ++ replicate count Value.Nil }
{
    for _at in 0..count {
        locals.push_reserved(Held::new(Value::Nil));
    }
}

/// Values in the first locals, and nil in the others.
fn first_locals(values: &Values) -> Result<Frame, AllocError>
    ensures { IfOk result (λ locals.
        locals ≡ values.now ++ replicate (16 - length values.now) Value.Nil) }
{
    let nils = LOCALS.saturating_sub(values.len());
    let mut locals = Vec::with_capacity(values.allocator(), values.len() + nils)?;
    add_values(&mut locals, values)?;
    add_nils(&mut locals, nils);
    Ok(Frame::from_vec(locals))
}

/// A method of an own object as it begins: at place 0, with these values in the first of its 16
/// locals and nil in the others, running, and with no handler.
///
/// Where there are more than 16 values, all of them become locals. `AllocError` comes where memory
/// runs out.
pub fn fresh(
    object: Oid,
    method: MethodId,
    reason: Reason,
    values: &Values,
) -> Result<Invocation, AllocError>
    ensures { IfOk result (λ i. i ≡ fresh object method reason values.now) }
{
    Ok(Invocation {
        object,
        method,
        pc: 0,
        locals: first_locals(values)?,
        handler: None,
        reason,
        into: 0,
        outs: Locals::new(values.allocator()),
        state: InvState::Running,
    })
}

/// A method of an own object begins, on top of the node's stack.
pub(crate) fn begin(
    node: &mut Node,
    object: Oid,
    method: MethodId,
    reason: Reason,
    values: &Values,
) -> Done
    ensures { OnOk result (node.new
        ≡ pushed (fresh object method reason values.now) node.old) }
{
    let begun = fresh(object, method, reason, values)?;
    node.stack.insert(0, begun)
}

/// So many nils.
#[tactic(auto, using(crate::proofs::Padding::nil_steps))]
fn nils(alloc: Global, count: usize) -> Result<Values, AllocError>
    ensures { IfOk result (λ values. values ≡ replicate count Value.Nil) }
{
    let mut values = Values::with_capacity(alloc, count)?;
    for _at in 0..count {
        values.push(Value::Nil)?;
    }
    Ok(values)
}

/// An object of a class as it is made, with nil slots; one whose class is not there has none.
#[tactic(auto, using(crate::proofs::Padding::as_many_nils))]
pub fn blank(alloc: Global, table: &ClassTable, class: ClassId) -> Result<Made, AllocError>
    ensures { IfOk result (λ made. made ≡ blank table.now class) }
{
    if class.0 >= table.count() {
        let slots = Values::new(alloc);
        return Ok(Made { class, slots });
    }
    let slots = nils(alloc, table.slots(class).len())?;
    Ok(Made { class, slots })
}

/// One object of a class, as it is made.
pub(crate) fn one_blank(
    alloc: Global,
    table: &ClassTable,
    class: ClassId,
) -> Result<ObjList, AllocError>
    ensures { IfOk result (λ new. new ≡ blank table.now class ∷ []) }
{
    one(alloc, blank(alloc, table, class)?)
}

/// An object as it is stored under a serial.
fn stored_under(serial: u64, made: &Made) -> Result<Shared<Stored>, AllocError>
    ensures { IfOk result (λ x. x ≡
        record { serial = serial; class = made.now.class; slots = made.now.slots }) }
{
    let slots = made.slots.clone()?;
    let stored = Stored {
        serial,
        class: made.class,
        slots,
    };
    Shared::new(made.slots.allocator(), stored)
}

/// Objects under the serials from one on. A serial past what a number can be is want of memory too.
#[tactic(auto, using(crate::proofs::Serials::serial_steps))]
fn with_serials(serial: u64, new: &ObjList) -> Result<Heap, AllocError>
    ensures { IfOk result (λ xs. xs ≡ with_serials serial new.now) }
{
    let mut next = serial;
    let mut stored = Items::new(new.allocator());
    for made in new.as_slice() {
        stored.push(stored_under(next, made)?)?;
        let Some(after) = next.checked_add(1) else {
            return Err(AllocError);
        };
        next = after;
    }
    Ok(stored)
}

/// The heap with new objects.
fn grown(new: &ObjList, node: &Node) -> Result<Shared<Heap>, AllocError>
    ensures { IfOk result (λ heap.
        heap ≡ node.now.heap ++ with_serials node.now.next_serial new.now) }
{
    let mut heap = node.heap.get().clone()?;
    heap.append(with_serials(node.next_serial, new)?)?;
    Shared::new(new.allocator(), heap)
}

/// New objects are stored under the next serials. Where none is new, the heap stays shared. A
/// serial past what a number can be is want of memory too.
pub(crate) fn store(node: &mut Node, new: &ObjList) -> Done
    ensures { OnOk result (node.new ≡ with_objects new.now node.old) }
{
    if new.is_empty() {
        return Ok(());
    }
    let Some(next) = node.next_serial.checked_add(new.len() as u64) else {
        return Err(AllocError);
    };
    node.heap = grown(new, node)?;
    node.next_serial = next;
    Ok(())
}
