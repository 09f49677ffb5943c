ghost use Rattle.std.specs.Prelude.{◌≡◌, ◌<◌, ◌≤◌, ℕ, length, nat_lt, IfOk, IfSome, slice_get};
ghost use Rattle.std.specs.{Prelude.Some, Option.option_copied};
ghost use Rattle.do_class.specs.{Class.{AreMethods, place_of, selectors_of}, Index.IsIndexOf};

use crate::ids::Slots;
use crate::method::{Method, Methods};
use do_base::Text;
use std::alloc::{AllocError, Global};
use std::collections::BTreeMap;
use std::marker::Model;

/// A class whose methods are found by their selectors.
#[derive(Debug, Drop)]
pub struct IndexedClass {
    name: Text,
    slots: Slots,
    methods: Methods,
    places: BTreeMap<Text, u32>,
}

impl Model for IndexedClass {
    ghost use Rattle.do_sig.specs.contracts.signature.Signature as signature;
    ghost use Rattle.std.specs.Coded.{codes};
    ghost use Rattle.do_class.specs.{Class.Class, Index.IsIndexed};

    ghost Value = { Class };

    ghost coded = { Prim.hlevel (codes, signature.the_row.coded) };

    ghost view = { λ c. record { name = c.name; slots = c.slots; methods = c.methods } };

    ghost invariant = { λ c. IsIndexed (record
        { name = c.name; slots = c.slots; methods = c.methods }) c.places };
}

impl IndexedClass {
    ghost use Rattle.do_class.specs.Class.{IsClass};

    /// A class of this name, with an index of its methods by their selectors.
    ///
    /// Fails only where memory runs out.
    pub fn new(
        alloc: Global,
        name: Text,
        slots: Slots,
        methods: Methods,
    ) -> Result<IndexedClass, AllocError>
        requires few_slots { length slots ≤ 16 }
        requires methods { AreMethods methods }
        ensures { IfOk result (λ c. c ≡ record { name = name; slots = slots; methods = methods }) }
    {
        let places = index_of(alloc, &methods)?;
        Ok(IndexedClass {
            name,
            slots,
            methods,
            places,
        })
    }

    /// The name of the class.
    pub fn name(&self) -> &Text
        ensures { result.now ≡ self.now.name }
    {
        &self.name
    }

    /// The slots of the class, in order.
    pub fn slots(&self) -> &Slots
        ensures { result.now ≡ self.now.slots }
    {
        &self.slots
    }

    /// Whether there is a method at this place; places are from 0.
    pub fn has(&self, place: u32) -> bool
        ensures { result ≡ nat_lt place (length self.now.methods) }
    {
        (place as usize) < self.methods.len()
    }

    /// The method at this place.
    pub fn method(&self, place: u32) -> &Method
        requires { place < length self.now.methods }
        ensures { slice_get self.now.methods place ≡ Some result.now }
    {
        &self.methods.as_slice()[place as usize]
    }

    /// The place of the method of this selector; none where the class has no such method.
    pub fn place(&self, selector: &Text) -> Option<u32>
        ensures place { result ≡ place_of selector.now (selectors_of self.now.methods) }
    {
        self.places.get(selector).copied()
    }
}

/// The place of each method, by its selector.
fn index_of(alloc: Global, methods: &Methods) -> Result<BTreeMap<Text, u32>, AllocError>
    requires { AreMethods methods.now }
    ensures { IfOk result (IsIndexOf (selectors_of methods.now)) }
{
    let mut places = BTreeMap::new(alloc);
    for (place, method) in methods.as_slice().iter().enumerate() {
        places.insert(method.selector.clone()?, place as u32)?;
    }
    Ok(places)
}
