//! The codes of the methods, which are read once all classes are.
ghost use Rattle.std.specs.Prelude.{◌≡◌, ◌≢◌, ◌⊎◌, ◌<◌, IfOk, IfSome, OnOk, Some, codes, length};
ghost use Rattle.std.specs.{Prelude.{map, slice_get}, List.{All, AllZip, filter_map}};
ghost use Rattle.std.specs.Option.{option_map};
ghost use Rattle.toml.specs.View.{table_view};
ghost use Rattle.do_behave.specs.Programs.{HasCodes, IsMadeFor, Suits};
ghost use Rattle.do_class.specs.Table.{IsTable, class_at, names_of};
ghost use Rattle.do_document.specs.{Checks.{first_among, is_text, misfit}, Classes.kind_of};
ghost use Rattle.do_document.specs.{Document.tables_at, Finding.Finds, Paths.path};
ghost use Rattle.do_document.specs.Sound.{IsClassOf, IsKindOf};
ghost use Rattle.do_world.specs.Faults.{class_codes_fault, code_fault, codes_fault};
ghost use Rattle.do_world.specs.Faults.{kind_codes_fault, method_code_fault};
ghost use Rattle.do_world.specs.Worlds.{class_codes, code_text, codes_by, codes_of, method_code};
ghost use Rattle.do_world.specs.Worlds.{no_code, slot_names};

use crate::codes::no_code;
use do_behave::{ClassCodes, Codes};
use do_class::{ClassId, ClassTable, MethodId, Slots};
use do_class_kinds::{Kind, Kinds};
use do_document::{Place, WorldFault, tables_at, text_of, value_at};
use do_script::{AsmFault, Code, Names, assemble};
use std::alloc::{AllocError, Global};
use toml::Table;

/// The most methods of a class.
const MOST_METHODS: u32 = 64;

/// The refusal of a text, which is no code.
fn refusal(alloc: Global, place: Place, fault: AsmFault) -> WorldFault
    ensures { (result ≡ WorldFault.Memory) ⊎ ((fault ≢ AsmFault.Memory)
        × (result ≡ WorldFault.Asm (path place (codes "code")) fault)) }
{
    if matches!(&fault, AsmFault::Memory) {
        return WorldFault::Memory;
    }
    match place.path(alloc, "code") {
        Ok(at) => WorldFault::Asm(at, fault),
        Err(_) => WorldFault::Memory,
    }
}

/// The text of a method's code, which is empty where none stands.
fn text_at<'a>(alloc: Global, table: &'a Table, place: Place) -> Result<&'a str, WorldFault>
    ensures { Finds (misfit place (codes "code") is_text (table_view table.now))
        (λ text. code_text (table_view table.now) ≡ Some text.now) result }
{
    match value_at(table, "code") {
        Some(value) => text_of(alloc, value, place, "code"),
        None => Ok(""),
    }
}

/// The code of a method, in a class of these slots.
fn code_at(
    alloc: Global,
    table: &Table,
    place: Place,
    slots: &Names,
    classes: &Names,
) -> Result<Code, WorldFault>
    ensures { let t = table_view table.now in
        Finds (code_fault place slots.now classes.now t)
        (λ code. (method_code slots.now classes.now t ≡ Some code)
        × Suits (length slots.now) (length classes.now) code) result }
{
    let text = text_at(alloc, table, place)?;
    match assemble(alloc, text.as_bytes(), slots, classes) {
        Ok(code) => Ok(code),
        Err(fault) => Err(refusal(alloc, place, fault)),
    }
}

/// The names of slots.
fn names_of_slots(alloc: Global, slots: &Slots) -> Result<Names, AllocError>
    ensures { IfOk result (λ names. names ≡ slot_names slots.now) }
{
    let mut names = Names::new(alloc);
    for slot in slots.as_slice() {
        names.push(slot.name.clone()?)?;
    }
    Ok(names)
}

/// The names of classes.
fn names_of_classes(alloc: Global, classes: &ClassTable) -> Result<Names, AllocError>
    ensures names { IfOk result (λ names. names ≡ names_of classes.now) }
    ensures table { OnOk result (IsTable classes.now) }
{
    let mut names = Names::new(alloc);
    for class in 0..classes.count() {
        names.push(classes.name(ClassId(class)).clone()?)?;
    }
    Ok(names)
}

/// The codes of the tables of methods, in their order, of a class of a number.
fn codes_of_methods(
    alloc: Global,
    tables: &[&Table],
    k: usize,
    slots: &Names,
    classes: &Names,
) -> Result<ClassCodes, WorldFault>
    ensures { let ts = map (λ t. table_view t.now) tables.now in
        Finds (first_among (method_code_fault k slots.now classes.now) ts)
        (λ made. (made ≡ filter_map (method_code slots.now classes.now) ts)
        × (length made ≡ length ts)
        × All (Suits (length slots.now) (length classes.now)) made) result }
{
    let mut codes = ClassCodes::new(alloc);
    for (j, method) in tables.iter().enumerate() {
        let code = code_at(alloc, *method, Place::Method(k, j), slots, classes)?;
        codes.push(code)?;
    }
    Ok(codes)
}

/// The codes of a class of a number.
fn class_codes(
    alloc: Global,
    table: &Table,
    k: usize,
    slots: &Names,
    classes: &Names,
) -> Result<ClassCodes, WorldFault>
    ensures { let t = table_view table.now in
        Finds (class_codes_fault k slots.now classes.now t)
        (λ made. (made ≡ class_codes slots.now classes.now t)
        × (length made ≡ length (tables_at (codes "method") t))
        × All (Suits (length slots.now) (length classes.now)) made) result }
{
    let tables = tables_at(alloc, table, "method")?;
    codes_of_methods(alloc, tables.as_slice(), k, slots, classes)
}

/// An empty code for each method of a class.
fn no_codes(alloc: Global, classes: &ClassTable, class: ClassId) -> Result<ClassCodes, AllocError>
    requires there { class.0 < length classes.now }
    requires table { IsTable classes.now }
    ensures { IfOk result (λ codes. option_map (λ c. map (λ m. no_code) c.methods)
        (class_at classes.now class) ≡ Some codes) }
{
    let mut codes = ClassCodes::new(alloc);
    for index in 0..MOST_METHODS {
        if classes.has_method(MethodId { class, index }) {
            codes.push(no_code(alloc)?)?;
        }
    }
    Ok(codes)
}

/// The codes of a class of a number and a kind, which comes from a table.
fn codes_at(
    alloc: Global,
    table: &Table,
    k: usize,
    kind: Kind,
    classes: &ClassTable,
    names: &Names,
) -> Result<ClassCodes, WorldFault>
    requires there { k < length classes.now }
    requires table { IsTable classes.now }
    requires class { IfSome (slice_get classes.now k) (IsClassOf (table_view table.now)) }
    requires kind { kind_of (table_view table.now) ≡ Some kind }
    requires names { names.now ≡ names_of classes.now }
    ensures { let t = table_view table.now in
        Finds (kind_codes_fault k names.now t kind)
        (λ made. (made ≡ codes_by names.now t kind)
        × IfSome (slice_get classes.now k) (HasCodes (length classes.now) made)) result }
{
    let class = ClassId(k as u32);
    match kind {
        Kind::Script => {
            let slots = names_of_slots(alloc, classes.slots(class))?;
            class_codes(alloc, table, k, &slots, names)
        }
        _ => Ok(no_codes(alloc, classes, class)?),
    }
}

/// The codes of all classes, which come from these tables and are of these kinds.
pub(crate) fn codes_for(
    alloc: Global,
    tables: &[&Table],
    classes: &ClassTable,
    kinds: &Kinds,
) -> Result<Codes, WorldFault>
    requires classes { AllZip IsClassOf (map (λ t. table_view t.now) tables.now) classes.now }
    requires kinds { AllZip IsKindOf (map (λ t. table_view t.now) tables.now) kinds.now }
    ensures { let ts = map (λ t. table_view t.now) tables.now in
        Finds (first_among (codes_fault (names_of classes.now)) ts)
        (λ codes. (codes ≡ map (codes_of (names_of classes.now)) ts)
        × IsMadeFor codes classes.now × IsTable classes.now) result }
{
    let names = names_of_classes(alloc, classes)?;
    let mut codes = Codes::new(alloc);
    for (k, table) in tables.iter().enumerate() {
        let kind = kinds.as_slice()[k];
        let of_class = codes_at(alloc, *table, k, kind, classes, &names)?;
        codes.push(of_class)?;
    }
    Ok(codes)
}
