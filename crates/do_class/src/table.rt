//! The table finds by ordered maps, one for the names of classes and one in each class. Each
//! selector of a table is a SELECTOR with as many colons as its signature has arguments:
//! `add_class` asks for that, and `selector` says so.

ghost use Rattle.std.specs.Prelude.{◌≡◌, ◌<◌, ◌≤◌, ◌↔◌, IsTrue, [], ◌∷◌, ◌++◌, ℕ, length, IfOk};
ghost use Rattle.std.specs.Prelude.{OnOk, OnErr, IsErrOf, IfSome, IsSome, IsNone, Some};
ghost use Rattle.std.specs.{BTreeMap.{Updates, IsUnchanged}, Cmp.Lexicographic.slice_cmp};
ghost use Rattle.std.specs.Ordering.{nat_cmp};

use crate::fault::ClassFault;
use crate::ids::{ClassId, MethodId, Slots};
use crate::indexed::IndexedClass;
use crate::method::Methods;
use do_base::{Items, Text};
use do_sig::Signature;
use std::alloc::{AllocError, Global};
use std::collections::BTreeMap;
use std::marker::Model;

/// The most slots of a class.
const MAX_SLOTS: usize = 16;

/// The classes of a world, in order, found by name, each with its methods found by selector.
///
/// Contracts see a table as the list of its classes. Ids that are passed in are of the table.
#[derive(Debug, Drop)]
pub struct ClassTable {
    classes: Items<IndexedClass>,
    places: BTreeMap<Text, u32>,
}

impl Model for ClassTable {
    ghost use Rattle.do_sig.specs.contracts.signature.Signature as signature;
    ghost use Rattle.std.specs.{Prelude.List, Coded.codes};
    ghost use Rattle.do_class.specs.{Class.Class, Table.{names_of, IsTable}, Index.IsIndexedTable};

    ghost Value = { List Class };

    ghost coded = { Prim.hlevel (codes, signature.the_row.coded) };

    ghost view = { λ t. t.classes };

    ghost invariant = { λ t. IsIndexedTable t.classes t.places };
}

impl ClassTable {
    ghost use Rattle.std.specs.Option.{option_map};
    ghost use Rattle.do_grammar.specs.Names.{is_selector, colons};
    ghost use Rattle.do_sig.specs.Calls.{arg_count};
    ghost use Rattle.do_class.specs.Class.{AreMethods};
    ghost use Rattle.do_class.specs.Table.{IsTable, name_of, slots_of, method_at, signature_of};
    ghost use Rattle.do_class.specs.Table.{selector_of, class_named, find_method};

    /// A table with no class.
    pub fn new(alloc: Global) -> ClassTable
        ensures { result ≡ [] }
    {
        ClassTable {
            classes: Items::new(alloc),
            places: BTreeMap::new(alloc),
        }
    }

    /// Adds a class behind the others, and tells its id.
    ///
    /// A name that is in the table is refused, then more than 16 slots. A refusal leaves the table
    /// as it was.
    pub fn add_class(
        &mut self,
        name: Text,
        slots: Slots,
        methods: Methods,
    ) -> Result<ClassId, ClassFault>
        requires room { length self.old < 256 }
        requires methods { AreMethods methods }
        ensures id { IfOk result (λ class. class.0 ≡ length self.old) }
        ensures added { OnOk result (self.new ≡ self.old
            ++ record { name = name; slots = slots; methods = methods } ∷ []) }
        ensures taken { IsErrOf result ClassFault.NameTaken ↔ IsSome (class_named self.old name) }
        ensures slots { (n : ℕ) → IsErrOf result (ClassFault.TooManySlots n)
            ↔ (IsNone (class_named self.old name) × (n ≡ length slots) × (16 < n)) }
        ensures err { OnErr result (self.new ≡ self.old) }
    {
        if self.places.contains_key(&name) {
            return Err(ClassFault::NameTaken);
        }
        if slots.len() > MAX_SLOTS {
            return Err(ClassFault::TooManySlots(slots.len()));
        }
        let class = ClassId(self.classes.len() as u32);
        let key = name.clone()?;
        let added = IndexedClass::new(self.classes.allocator(), name, slots, methods)?;
        append(&mut self.classes, &mut self.places, added, key)?;
        Ok(class)
    }

    /// The method of a class that has this selector.
    pub fn find(&self, class: ClassId, selector: &Text) -> Option<MethodId>
        requires { class.0 < length self.now }
        ensures value { result ≡ find_method self.now class selector.now }
        ensures known { IfSome result (λ method. IsSome (method_at self.now method)) }
    {
        let index = self.classes.as_slice()[class.0 as usize].place(selector)?;
        Some(MethodId { class, index })
    }

    /// Whether a method is of this table.
    pub fn has_method(&self, method: MethodId) -> bool
        ensures { IsTrue result ↔ IsSome (method_at self.now method) }
    {
        match self.classes.get(method.class.0 as usize) {
            Some(class) => class.has(method.index),
            None => false,
        }
    }

    /// The signature of a method.
    pub fn signature(&self, method: MethodId) -> &Signature
        requires { IsSome (method_at self.now method) }
        ensures { signature_of self.now method ≡ Some result.now }
    {
        let class = &self.classes.as_slice()[method.class.0 as usize];
        &class.method(method.index).signature
    }

    /// The class of this name.
    pub fn class_named(&self, name: &Text) -> Option<ClassId>
        ensures value { result ≡ class_named self.now name.now }
        ensures known { IfSome result (λ class. class.0 < length self.now) }
    {
        self.places.get(name).copied().map(ClassId)
    }

    /// The slots of a class.
    pub fn slots(&self, class: ClassId) -> &Slots
        requires { class.0 < length self.now }
        ensures { slots_of self.now class ≡ Some result.now }
    {
        self.classes.as_slice()[class.0 as usize].slots()
    }

    /// The name of a class.
    pub fn name(&self, class: ClassId) -> &Text
        requires { class.0 < length self.now }
        ensures { name_of self.now class ≡ Some result.now }
    {
        self.classes.as_slice()[class.0 as usize].name()
    }

    /// The number of classes.
    pub fn count(&self) -> u32
        ensures value { result ≡ length self.now }
        ensures table { IsTable self.now }
    {
        self.classes.len() as u32
    }

    /// The selector of a method, which has a colon for each of its arguments.
    pub fn selector(&self, method: MethodId) -> &Text
        requires { IsSome (method_at self.now method) }
        ensures value { selector_of self.now method ≡ Some result.now }
        ensures selects { IsTrue (is_selector result.now) }
        ensures colons { option_map arg_count (signature_of self.now method)
            ≡ Some (colons result.now) }
    {
        let class = &self.classes.as_slice()[method.class.0 as usize];
        &class.method(method.index).selector
    }
}

/// Puts a class behind the others, and its place in the map.
fn append(
    classes: &mut Items<IndexedClass>,
    places: &mut BTreeMap<Text, u32>,
    added: IndexedClass,
    key: Text,
) -> Result<(), AllocError>
    requires { length classes.old < 256 }
    ensures added { OnOk result (classes.new ≡ classes.old ++ added ∷ []) }
    ensures placed { OnOk result (Updates (slice_cmp nat_cmp) places.old places.new key
        (Some (length classes.old))) }
    ensures classes_stay { OnErr result (classes.new ≡ classes.old) }
    ensures places_stay { OnErr result (IsUnchanged places.old places.new) }
{
    let place = classes.len() as u32;
    classes.push(added)?;
    match places.insert(key, place) {
        Ok(_) => Ok(()),
        Err(_) => {
            classes.pop();
            Err(AllocError)
        }
    }
}
