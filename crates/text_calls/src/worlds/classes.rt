//! What the classes of a world have.

ghost use Rattle.std.specs.Prelude.{IsSome};
ghost use Rattle.do_class.specs.Table.{method_at};

use call_rows::{
    call_of, count_at, count_value, no_call, number_or_nil, shown, text_at, text_value,
    triple_value, word_with,
};
use do_base::{Value, Values};
use do_check::{Verdict, verdict};
use do_class::{ClassId, ClassTable, MethodId};
use do_document::Classes;
use do_native_acts::as_number;
use std::alloc::Global;
use std::test::Fail;

/// What is listed of classes.
#[derive(Clone, Copy)]
enum Listed {
    Names,
    Kinds,
    SlotCounts,
    RuleCounts,
    Slots,
}

/// What is told of classes.
#[derive(Clone, Copy)]
enum Call {
    List(Listed),
    HasMethod,
    Find,
    Verdict,
    Named,
}

/// The words of the calls.
const CALLS: [(&[u8], Call); 9] = [
    (b"names", Call::List(Listed::Names)),
    (b"kinds", Call::List(Listed::Kinds)),
    (b"slot_counts", Call::List(Listed::SlotCounts)),
    (b"rule_counts", Call::List(Listed::RuleCounts)),
    (b"slots", Call::List(Listed::Slots)),
    (b"has_method", Call::HasMethod),
    (b"find", Call::Find),
    (b"verdict", Call::Verdict),
    (b"named", Call::Named),
];

/// Adds the names of the classes, in order.
fn push_names(values: &mut Values, classes: &Classes) -> Result<(), Fail> {
    for class in 0..classes.table.count() {
        values.push(Value::Text(classes.table.name(ClassId(class)).clone()?))?;
    }
    Ok(())
}

/// Adds the kinds of the classes, as they are printed.
fn push_kinds(values: &mut Values, classes: &Classes) -> Result<(), Fail> {
    let alloc = values.allocator();
    for kind in classes.kinds.as_slice() {
        values.push(shown(alloc, kind)?)?;
    }
    Ok(())
}

/// Adds how many slots each class has.
fn push_slot_counts(values: &mut Values, classes: &Classes) -> Result<(), Fail> {
    for class in 0..classes.table.count() {
        values.push(count_value(classes.table.slots(ClassId(class)).len())?)?;
    }
    Ok(())
}

/// Adds how many rules each class has.
fn push_rule_counts(values: &mut Values, classes: &Classes) -> Result<(), Fail> {
    for rules in classes.rules.as_slice() {
        values.push(count_value(rules.len())?)?;
    }
    Ok(())
}

/// Adds the slots of a class: the name of each, and whether it is copied.
fn push_slots(values: &mut Values, classes: &Classes, args: &Values) -> Result<(), Fail> {
    let class = ClassId(u32::from(count_at(args, 0)?));
    if class.0 >= classes.table.count() {
        return Err(Fail::from("no class"));
    }
    for slot in classes.table.slots(class).as_slice() {
        values.push(Value::Text(slot.name.clone()?))?;
        values.push(as_number(slot.copy))?;
    }
    Ok(())
}

/// Adds what is listed of classes.
fn push_list(
    values: &mut Values,
    classes: &Classes,
    listed: Listed,
    args: &Values,
) -> Result<(), Fail> {
    match listed {
        Listed::Names => push_names(values, classes),
        Listed::Kinds => push_kinds(values, classes),
        Listed::SlotCounts => push_slot_counts(values, classes),
        Listed::RuleCounts => push_rule_counts(values, classes),
        Listed::Slots => push_slots(values, classes, args),
    }
}

/// What is listed of classes.
fn list_of(alloc: Global, classes: &Classes, listed: Listed, args: &Values) -> Result<Value, Fail> {
    let mut values = Values::new(alloc);
    push_list(&mut values, classes, listed, args)?;
    Ok(Value::List(values))
}

/// Whether a class has a method.
fn has_method(classes: &Classes, args: &Values) -> Result<Value, Fail> {
    let class = ClassId(u32::from(count_at(args, 0)?));
    if class.0 >= classes.table.count() {
        return Err(Fail::from("no class"));
    }
    let found = classes.table.find(class, text_at(args, 1)?);
    Ok(as_number(found.is_some()))
}

/// The place of a method in its class, its selector and how many arguments it takes.
fn method_value(alloc: Global, table: &ClassTable, method: MethodId) -> Result<Value, Fail>
    requires { IsSome (method_at table.now method) }
{
    let index = Value::Num(i64::from(method.index));
    let count = count_value(table.signature(method).args())?;
    let selector = Value::Text(table.selector(method).clone()?);
    triple_value(alloc, index, selector, count)
}

/// The method of a class that has a selector, or nil.
fn find(alloc: Global, table: &ClassTable, args: &Values) -> Result<Value, Fail> {
    let class = ClassId(u32::from(count_at(args, 0)?));
    if class.0 >= table.count() {
        return Err(Fail::from("no class"));
    }
    match table.find(class, text_at(args, 1)?) {
        Some(method) => method_value(alloc, table, method),
        None => Ok(Value::Nil),
    }
}

/// What the rules of a class say of a selector: that it goes on, why it is denied, or nil.
fn class_verdict(alloc: Global, classes: &Classes, args: &Values) -> Result<Value, Fail> {
    let class = usize::from(count_at(args, 0)?);
    let rules = classes.rules.get(class).ok_or("no class")?;
    match verdict(rules, text_at(args, 1)?)? {
        Some(Verdict::Forward) => text_value(alloc, b"forward"),
        Some(Verdict::Deny(text)) => word_with(alloc, b"deny", Value::Text(text)),
        None => Ok(Value::Nil),
    }
}

/// The number of the class of a name, or nil.
fn class_named(classes: &Classes, args: &Values) -> Result<Value, Fail> {
    let found = classes.table.class_named(text_at(args, 0)?);
    Ok(number_or_nil(found.map(|class| i64::from(class.0))))
}

/// Tells what classes have.
pub(crate) fn tell(
    alloc: Global,
    classes: &Classes,
    word: &[u8],
    args: &Values,
) -> Result<Value, Fail> {
    match call_of(&CALLS, word) {
        Some(Call::List(listed)) => list_of(alloc, classes, listed, args),
        Some(Call::HasMethod) => has_method(classes, args),
        Some(Call::Find) => find(alloc, &classes.table, args),
        Some(Call::Verdict) => class_verdict(alloc, classes, args),
        Some(Call::Named) => class_named(classes, args),
        None => no_call(),
    }
}
