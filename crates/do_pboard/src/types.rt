//! The types of a pasteboard, with their data.
ghost use Rattle.std.specs.Prelude.{◌≡◌, IfOk, OnOk, OnErr, IfErr, Some, None, if◌then◌else◌, ◌++◌};
ghost use Rattle.std.specs.{Prelude.{◌∷◌, [], ◌≤◌, IsTrue, length, nat_le}, Option.option_copied};
ghost use Rattle.do_grammar.specs.Words.{◌>>?◌};
ghost use Rattle.do_native_acts.specs.{Faults.FaultOf, Types.are_types};
ghost use Rattle.do_table.specs.Entries.{added, once};
ghost use Rattle.do_pboard.specs.Core.{bare, contents, merged, with_content};
ghost use Rattle.do_pboard.specs.Changes.{count_new, few_types, with_types};

use crate::kept::{Content, Contents, Declared, DeclaredTypes};
use do_base::{Text, Texts};
use do_native_acts::{CoreFault, MAX_TYPES, are_types};
use do_table::Table;
use std::alloc::AllocError;

/// Declared types, with their data.
pub(crate) type TypeTable = Table<Option<Text>>;

/// The table of declared types; none where one is there twice.
fn table_of(types: &DeclaredTypes) -> Result<Option<TypeTable>, AllocError>
    ensures { IfOk result (λ table. table ≡ once types.now) }
{
    Table::of(types.allocator(), types.as_slice())
}

/// Appends a type to the others, with its data if there is any.
fn push_declared(
    declared: &mut DeclaredTypes,
    kind: &Text,
    content: Option<&Text>,
) -> Result<(), AllocError>
    ensures ok { OnOk result (declared.new
        ≡ declared.old ++ (kind.now, option_copied content.entry) ∷ []) }
{
    let kind = kind.clone()?;
    let data = match content {
        Some(content) => Some(content.clone()?),
        None => None,
    };
    declared.push(Declared { kind, data })?;
    Ok(())
}

/// Types without data.
fn bare(types: &Texts) -> Result<DeclaredTypes, AllocError>
    ensures { IfOk result (λ declared. declared ≡ bare types.now) }
{
    let mut declared = DeclaredTypes::with_capacity(types.allocator(), types.len())?;
    for kind in types.as_slice() {
        push_declared(&mut declared, kind, None)?;
    }
    Ok(declared)
}

/// The table of these types without data; none where they are too many, one is there twice, or one
/// has no byte or too many.
#[tactic(auto, using(crate::proofs::TypeTables::once_bare))]
pub(crate) fn bare_table(types: &Texts) -> Result<Option<TypeTable>, AllocError>
    ensures { IfOk result (λ table.
        table ≡ (if are_types types.now then Some (bare types.now) else None)) }
{
    if !are_types(types) {
        return Ok(None);
    }
    table_of(&bare(types)?)
}

/// The types with their data; none where the data does not stand in the order of the types.
fn merge(types: &Texts, contents: &Contents) -> Result<Option<DeclaredTypes>, AllocError>
    ensures { IfOk result (λ declared. declared ≡ merged types.now contents.now) }
{
    let mut declared = DeclaredTypes::with_capacity(types.allocator(), types.len())?;
    let rows = contents.as_slice();
    let mut used = 0;
    for of in types.as_slice() {
        let content = match rows.get(used) {
            Some(row) if *of == row.kind => Some(&row.data),
            _ => None,
        };
        push_declared(&mut declared, of, content)?;
        if content.is_some() {
            used += 1;
        }
    }
    if used == rows.len() {
        Ok(Some(declared))
    } else {
        Ok(None)
    }
}

/// The table of the types with their data, where a pasteboard can have them.
#[tactic(auto, using(crate::proofs::TypeTables::once_merged))]
pub(crate) fn merged_table(
    types: &Texts,
    contents: &Contents,
) -> Result<Option<TypeTable>, AllocError>
    ensures { IfOk result (λ table. table ≡ (merged types.now contents.now >>? λ ts.
        if are_types types.now then Some ts else None)) }
{
    match merge(types, contents)? {
        Some(declared) if are_types(types) => table_of(&declared),
        _ => Ok(None),
    }
}

/// Appends a type and its data to the others, where it has data.
fn push_content(list: &mut Contents, kind: &Text, content: &Option<Text>) -> Result<(), AllocError>
    ensures ok { OnOk result (list.new ≡ list.old ++ with_content kind.now content.now []) }
{
    if let Some(data) = content {
        let kind = kind.clone()?;
        let data = data.clone()?;
        list.push(Content { kind, data })?;
    }
    Ok(())
}

/// The types that have data, with it.
pub(crate) fn contents_of(types: &TypeTable) -> Result<Contents, AllocError>
    ensures { IfOk result (λ list. list ≡ contents types.now) }
{
    let mut list = Contents::new(types.allocator());
    for at in 0..types.len() {
        let (kind, data) = types.entry(at);
        push_content(&mut list, kind, data)?;
    }
    Ok(list)
}

/// Adds a type without data, where it is new. If memory runs out, the table is unchanged.
fn add_type(table: &mut TypeTable, kind: &Text) -> Result<(), AllocError>
    ensures ok { OnOk result (table.new ≡ added table.old kind.now None) }
    ensures err { OnErr result (table.new ≡ table.old) }
{
    table.add(kind.clone()?, None)?;
    Ok(())
}

/// How many of these types are new.
fn count_new(table: &TypeTable, types: &Texts) -> usize
    ensures { result ≡ count_new table.now types.now }
{
    let mut count = 0;
    for kind in types.as_slice() {
        if table.get(kind).is_none() {
            count += 1;
        }
    }
    count
}

/// Whether there are at most 64 types once these are added.
fn has_room(table: &TypeTable, types: &Texts) -> bool
    requires types { IsTrue (are_types types.now) }
    requires few { length table.now ≤ 64 }
    ensures { result ≡ nat_le (length (with_types table.now types.now)) 64 }
{
    count_new(table, types) <= MAX_TYPES - table.len()
}

/// Adds each of these types that is new. If memory runs out, the table is unchanged.
fn add_all(table: &mut TypeTable, types: &Texts) -> Result<(), AllocError>
    ensures ok { OnOk result (table.new ≡ with_types table.old types.now) }
    ensures err { OnErr result (table.new ≡ table.old) }
{
    let count = table.len();
    for kind in types.as_slice() {
        if let Err(AllocError) = add_type(table, kind) {
            table.truncate(count);
            return Err(AllocError);
        }
    }
    Ok(())
}

/// Adds each of these types that is new. Where there would be more than 64, that is refused as
/// `Full(64)`. On any error the table is unchanged.
pub(crate) fn add_types(table: &mut TypeTable, types: &Texts) -> Result<(), CoreFault>
    requires types { IsTrue (are_types types.now) }
    requires few { length table.old ≤ 64 }
    ensures ok { OnOk result (few_types (with_types table.old types.now) ≡ Some table.new) }
    ensures fault { IfErr result (FaultOf 64 (few_types (with_types table.old types.now))) }
    ensures err { OnErr result (table.new ≡ table.old) }
{
    if !has_room(table, types) {
        return Err(CoreFault::Full(MAX_TYPES as u64));
    }
    match add_all(table, types) {
        Ok(()) => Ok(()),
        Err(AllocError) => Err(CoreFault::Memory),
    }
}
