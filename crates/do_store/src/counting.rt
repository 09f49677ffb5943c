//! The counts of names, raised and lowered along a value.
ghost use Rattle.std.specs.Prelude.{◌≡◌, ◌≢◌, ◌∷◌, [], ◌+◌, ◌<◌, ◌^◌, ◌↔◌, ◌-◌, ℕ, IsTrue, Some};
ghost use Rattle.std.specs.Prelude.{map, false, cond, eqb, sum_by, min};
ghost use Rattle.do_store.specs.{Objects.stored_at, Names.{value_names, values_name, named_in}};
ghost use Rattle.do_store.specs.{Names.replaced, Books.{Books, seen}, Steps.{Raises, Lowers}};
ghost use Rattle.do_store.specs.{Listing.{Rising, object_serial}, declared.object.Object.Object};

use crate::table::Table;
use crate::waiting::Waiting;
use do_base::{Value, Values};

/// Whether an object has to begin to wait: nothing holds or names it, and it does not wait yet.
pub fn is_idle(held: u64, named: u64, waits: bool) -> bool
    ensures { IsTrue result ↔ ((held ≡ 0) × (named ≡ 0) × (waits ≡ false)) }
{
    held == 0 && named == 0 && !waits
}

/// Writes an object's counts, and lets it wait where both are 0.
pub fn settle(
    table: &mut Table,
    queue: &mut Waiting,
    serial: u64,
    held: u64,
    named: u64,
    waits: bool,
)
    ensures books { (port top : ℕ) (pending pending' : ℕ → ℕ) (o : Object)
        → Books port table.old.objects table.old.spare queue.old pending
        → Rising object_serial 0 table.old.objects top
        → stored_at table.old.objects serial ≡ Some o → o.waiting ≡ waits
        → named ≡ named_in port serial (map seen table.old.objects) + pending' serial
        → ((k : ℕ) → k ≢ serial → pending' k ≡ pending k)
        → Books port table.new.objects table.new.spare queue.new pending' }
    ensures seen { (top : ℕ) → Rising object_serial 0 table.old.objects top
        → map seen table.new.objects ≡ replaced serial (λ s. record s { held = held } ∷ [])
        (map seen table.old.objects) }
    ensures next { table.new.next ≡ table.old.next }
    ensures spare { table.new.spare ≡ table.old.spare }
{
    let idle = is_idle(held, named, waits);
    if !idle {
        table.set_counts(serial, held, named, waits);
        return;
    }
    if queue.spare() == 0 {
        table.set_counts(serial, held, named, waits);
        return;
    }
    table.set_counts(serial, held, named, true);
    queue.post(serial);
}

/// Counts one name of an object more, where it is stored.
fn raise_one(table: &mut Table, port: u16, serial: u64)
    ensures { Raises port table.old table.new (λ n. cond (eqb serial n) 1 0) }
{
    let Some(object) = table.get(serial) else {
        return;
    };
    let held = object.held;
    let named = object.named;
    let waits = object.waiting;
    let more = named.saturating_add(1);
    table.set_counts(serial, held, more, waits);
}

/// Counts one name of an object less, where it is stored.
fn lower_one(table: &mut Table, queue: &mut Waiting, port: u16, serial: u64)
    ensures { Lowers port table.old table.new queue.old queue.new (λ n. cond (eqb serial n) 1 0) }
{
    let Some(object) = table.get(serial) else {
        return;
    };
    let held = object.held;
    let named = object.named;
    let waits = object.waiting;
    let less = named.saturating_sub(1);
    settle(table, queue, serial, held, less, waits);
}

/// Counts the names of own objects in a value.
#[cycle(raise)]
pub(crate) fn raise_value(table: &mut Table, port: u16, value: &Value)
    ensures { Raises port table.old table.new (λ n. value_names port n value.now) }
{
    match value {
        Value::Obj(oid) => {
            let home = oid.node.port();
            if home == port {
                raise_one(table, port, oid.serial);
            }
        }
        Value::List(values) => raise_values(table, port, values),
        _ => {}
    }
}

/// Counts the names of own objects in values.
#[cycle(raise)]
pub(crate) fn raise_values(table: &mut Table, port: u16, values: &Values)
    ensures { Raises port table.old table.new (λ n. values_name port n values.now) }
{
    for value in values.as_slice() {
        raise_value(table, port, value);
    }
}

/// Counts the names of own objects in a value no more.
#[cycle(lower)]
pub(crate) fn lower_value(table: &mut Table, queue: &mut Waiting, port: u16, value: &Value)
    ensures { Lowers port table.old table.new queue.old queue.new
        (λ n. value_names port n value.now) }
{
    match value {
        Value::Obj(oid) => {
            let home = oid.node.port();
            if home == port {
                lower_one(table, queue, port, oid.serial);
            }
        }
        Value::List(values) => lower_values(table, queue, port, values),
        _ => {}
    }
}

/// Counts the names of own objects in values no more.
#[cycle(lower)]
pub(crate) fn lower_values(table: &mut Table, queue: &mut Waiting, port: u16, values: &Values)
    ensures { Lowers port table.old table.new queue.old queue.new
        (λ n. values_name port n values.now) }
{
    for value in values.as_slice() {
        lower_value(table, queue, port, value);
    }
}
