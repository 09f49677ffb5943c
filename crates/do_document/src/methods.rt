//! One method of a class: its selector and its signature. Its code is read once all classes are.
ghost use Rattle.std.specs.Prelude.{◌≡◌, ◌≢◌, ◌⊎◌, ◌==◌, IsTrue, Some, codes, map, option_and_then};
ghost use Rattle.toml.specs.View.{table_view};
ghost use Rattle.do_grammar.specs.Names.{colons};
ghost use Rattle.do_sig.specs.{Calls.arg_count, MethodTypes.IsMethodType};
ghost use Rattle.do_class_kinds.specs.Methods.{signature_of};
ghost use Rattle.do_document.specs.{Checks.{is_text_with, required}, ClassFaults.is_new_selector};
ghost use Rattle.do_document.specs.{ClassFaults.{method_checks, types_fault}, Document.text_at};
ghost use Rattle.do_document.specs.{Finding.Finds, Paths.path, Sound.IsNextMethod};

use crate::document::{known_keys, required, text_of, text_required};
use crate::fault::WorldFault;
use crate::place::Place;
use do_base::Text;
use do_class::{Method, Methods};
use do_grammar::{colons_in, is_selector, is_text};
use do_sig::{EncFault, Signature};
use std::alloc::Global;
use toml::Table;

/// Whether a text is a selector that no method has.
fn is_new(methods: &Methods, selector: &[u8]) -> bool
    ensures { result ≡ is_new_selector methods.now selector.now }
{
    if !is_selector(selector) {
        return false;
    }
    for method in methods.as_slice() {
        if is_text(selector, method.selector.as_slice()) {
            return false;
        }
    }
    true
}

/// The selector of a method, behind others.
fn selector_at(
    alloc: Global,
    table: &Table,
    place: Place,
    methods: &Methods,
) -> Result<Text, WorldFault>
    ensures { let t = table_view table.now in
        Finds (required place (codes "selector") (is_text_with (is_new_selector methods.now)) t)
        (λ selector. (text_at (codes "selector") t ≡ Some selector)
        × IsTrue (is_new_selector methods.now selector)) result }
{
    let selector = text_required(alloc, table, place, "selector")?;
    if !is_new(methods, selector.as_slice()) {
        return Err(place.wrong(alloc, "selector"));
    }
    Ok(selector)
}

/// The refusal of types, which spell no signature.
fn refusal(alloc: Global, place: Place, fault: EncFault) -> WorldFault
    ensures { (result ≡ WorldFault.Memory)
        ⊎ ((fault ≢ EncFault.Memory)
        × (result ≡ WorldFault.Sig (path place (codes "types")) fault)) }
{
    if matches!(&fault, EncFault::Memory) {
        return WorldFault::Memory;
    }
    match place.path(alloc, "types") {
        Ok(at) => WorldFault::Sig(at, fault),
        Err(_) => WorldFault::Memory,
    }
}

/// The signature of a method.
fn signature_at(alloc: Global, table: &Table, place: Place) -> Result<Signature, WorldFault>
    ensures { let t = table_view table.now in
        Finds (types_fault place t)
        (λ signature. (option_and_then signature_of (text_at (codes "types") t) ≡ Some signature)
        × IsMethodType signature) result }
{
    let value = required(alloc, table, place, "types")?;
    let types = text_of(alloc, value, place, "types")?;
    match Signature::read(alloc, types.as_bytes()) {
        Ok(signature) => Ok(signature),
        Err(fault) => Err(refusal(alloc, place, fault)),
    }
}

/// Whether a signature has an argument for each colon of a selector.
fn is_counted(signature: &Signature, selector: &Text) -> bool
    ensures { result ≡ (arg_count signature.now == colons selector.now) }
{
    signature.args() == colons_in(selector.as_slice())
}

/// A method of a class, from a table that may have these keys, behind other methods.
pub(crate) fn method_at(
    alloc: Global,
    table: &Table,
    place: Place,
    keys: &[&str],
    methods: &Methods,
) -> Result<Method, WorldFault>
    ensures { Finds (method_checks (map (λ k. k.now) keys.now) place methods.now
        (table_view table.now)) (IsNextMethod methods.now (table_view table.now)) result }
{
    known_keys(alloc, table, place, keys)?;
    let selector = selector_at(alloc, table, place, methods)?;
    let signature = signature_at(alloc, table, place)?;
    if !is_counted(&signature, &selector) {
        return Err(place.wrong(alloc, "types"));
    }
    Ok(Method {
        selector,
        signature,
    })
}
