//! The classes of a world, without the codes of their methods.
ghost use Rattle.std.specs.Prelude.{◌≡◌, ◌≤◌, ◌<◌, ◌∷◌, [], ◌++◌, IsNone, IsTrue, OnOk, Some};
ghost use Rattle.std.specs.{Prelude.{codes, length, map}, List.{All, AllZip, filter_map}};
ghost use Rattle.toml.specs.View.{table_view};
ghost use Rattle.do_class.specs.{Class.AreMethods, Table.class_named};
ghost use Rattle.do_class_kinds.specs.Kinds.{AreKindsOf};
ghost use Rattle.do_document.specs.Checks.{first_among, is_text_with, misfit, required};
ghost use Rattle.do_document.specs.ClassFaults.{class_checks, class_fault, is_kind, is_new_name};
ghost use Rattle.do_document.specs.{Classes.{class_of, class_rules, kind_of}, Document.text_at};
ghost use Rattle.do_document.specs.Finding.{Finds};
ghost use Rattle.do_document.specs.Sound.{HasTypes, IsClassOf, IsKindOf, IsNextClass};

use crate::document::{known_keys, text_of, text_required, value_at};
use crate::fault::WorldFault;
use crate::parts::{Parts, parts_at};
use crate::place::Place;
use do_base::Text;
use do_class::{ClassFault, ClassTable, Methods, Slots};
use do_class_kinds::{Kind, Kinds, RuleTable, kind_named};
use do_grammar::is_name;
use std::alloc::{AllocError, Global};
use toml::Table;

/// The keys that a class may have.
const KEYS: [&str; 6] = ["allow", "deny", "method", "name", "native", "slots"];

/// The classes of a document. Each class of the table has a kind and a list of rules, at the same
/// place.
#[derive(Debug, Drop)]
pub struct Classes {
    /// The classes with their slots and methods, in the order of the document.
    pub table: ClassTable,
    /// The kind of each class.
    pub kinds: Kinds,
    /// The rules of each class; only checkers have some.
    pub rules: RuleTable,
}

/// A class that is not yet in a table.
#[derive(Drop)]
struct NewClass {
    name: Text,
    kind: Kind,
    parts: Parts,
}

/// Whether a text is a name that no class has.
fn is_new(classes: &ClassTable, name: &Text) -> bool
    ensures { result ≡ is_new_name classes.now name.now }
{
    is_name(name.as_slice()) && classes.class_named(name).is_none()
}

/// The name of a class, behind others.
fn name_at(
    alloc: Global,
    table: &Table,
    place: Place,
    classes: &ClassTable,
) -> Result<Text, WorldFault>
    ensures { let t = table_view table.now in
        Finds (required place (codes "name") (is_text_with (is_new_name classes.now)) t)
        (λ name. (text_at (codes "name") t ≡ Some name) × IsTrue (is_new_name classes.now name))
        result }
{
    let name = text_required(alloc, table, place, "name")?;
    if !is_new(classes, &name) {
        return Err(place.wrong(alloc, "name"));
    }
    Ok(name)
}

/// The kind of a class: the native one that it names, or else scripts.
fn kind_at(alloc: Global, table: &Table, place: Place) -> Result<Kind, WorldFault>
    ensures { let t = table_view table.now in
        Finds (misfit place (codes "native") (is_text_with is_kind) t)
        (λ kind. kind_of t ≡ Some kind) result }
{
    let Some(value) = value_at(table, "native") else {
        return Ok(Kind::Script);
    };
    let text = text_of(alloc, value, place, "native")?;
    match kind_named(text.as_bytes()) {
        Some(kind) => Ok(kind),
        None => Err(place.wrong(alloc, "native")),
    }
}

/// A class of a number, behind others.
fn class_at(
    alloc: Global,
    table: &Table,
    k: usize,
    classes: &ClassTable,
) -> Result<NewClass, WorldFault>
    ensures { Finds (class_checks k classes.now (table_view table.now))
        (λ c. IsNextClass classes.now (table_view table.now) c.kind (record {
          name = c.name;
          slots = c.parts.slots;
          methods = c.parts.methods;
        }) c.parts.rules) result }
{
    let place = Place::Class(k);
    known_keys(alloc, table, place, &KEYS)?;
    let name = name_at(alloc, table, place, classes)?;
    let kind = kind_at(alloc, table, place)?;
    let parts = parts_at(alloc, table, k, kind)?;
    Ok(NewClass { name, kind, parts })
}

/// Adds a class whose name is new.
fn add(
    classes: &mut ClassTable,
    name: Text,
    slots: Slots,
    methods: Methods,
) -> Result<(), AllocError>
    requires room { length classes.old < 256 }
    requires new { IsNone (class_named classes.old name) }
    requires slots { length slots ≤ 16 }
    requires methods { AreMethods methods }
    ensures { OnOk result (classes.new ≡ classes.old ++ record {
      name = name;
      slots = slots;
      methods = methods;
    } ∷ []) }
{
    match classes.add_class(name, slots, methods) {
        Ok(_) => Ok(()),
        Err(ClassFault::Memory) => Err(AllocError),
        Err(ClassFault::NameTaken) => unreachable!(),
        Err(ClassFault::TooManySlots(_)) => unreachable!(),
    }
}

/// The classes of tables, in their order.
///
/// They are refused with the first fault, class by class: unknown keys by rising bytes, `name`,
/// `native`, and then what its kind asks for. A class of scripts has `slots` and the tables of
/// `method`, and neither `allow` nor `deny`. A native class has neither `slots` nor `method`; a
/// checker's has the tables of `allow` and `deny`, every other one neither. The form is this
/// project's own.
pub fn classes_of(alloc: Global, tables: &[&Table]) -> Result<Classes, WorldFault>
    requires { length tables.now ≤ 256 }
    ensures { let ts = map (λ t. table_view t.now) tables.now in
        Finds (first_among class_fault ts)
        (λ made. ((made.table ≡ filter_map class_of ts) × (made.kinds ≡ filter_map kind_of ts)
        × (made.rules ≡ map class_rules ts))
        × AllZip IsClassOf ts made.table × AllZip IsKindOf ts made.kinds × All HasTypes made.table
        × AreKindsOf made.table made.kinds made.rules) result }
{
    let mut classes = ClassTable::new(alloc);
    let mut kinds = Kinds::new(alloc);
    let mut rules = RuleTable::new(alloc);
    for (k, table) in tables.iter().enumerate() {
        let NewClass { name, kind, parts } = class_at(alloc, *table, k, &classes)?;
        let Parts {
            slots,
            methods,
            rules: of_class,
        } = parts;
        add(&mut classes, name, slots, methods)?;
        kinds.push(kind)?;
        rules.push(of_class)?;
    }
    Ok(Classes {
        table: classes,
        kinds,
        rules,
    })
}
