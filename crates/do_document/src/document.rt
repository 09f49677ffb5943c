//! What stands in a document: at the keys of a table, and in its lists.
ghost use Rattle.std.specs.Prelude.{◌≡◌, ◌⊎◌, Some, None, map, not, find, string_bytes, ◌++◌, ◌≤◌};
ghost use Rattle.std.specs.{Prelude.{IfOk, MatchResult, OnOk, length}, List.list_any};
ghost use Rattle.std.specs.{Option.{option_map, option_to_list}, Str.bytes_eq};
ghost use Rattle.toml.specs.Data.{as_array, as_str, as_table, get_member};
ghost use Rattle.toml.specs.View.{items_view, table_view, view};
ghost use Rattle.do_document.specs.Checks.{is_list, is_of_kind, is_text, list_fault, missing};
ghost use Rattle.do_document.specs.Checks.{required, unknown, wrong_unless};
ghost use Rattle.do_document.specs.Document.{keys, members_at, tables_at, text_at, texts_at};
ghost use Rattle.do_document.specs.{Paths.path, Finding.Finds};

use crate::fault::WorldFault;
use crate::place::Place;
use do_base::Text;
use do_grammar::is_text;
use std::alloc::{AllocError, Global};
use toml::{Table, Value};

/// The value at a key.
pub fn value_at<'a>(table: &'a Table, key: &str) -> Option<&'a Value>
    ensures { option_map (λ v. view v.now) result ≡ get_member key.now (table_view table.now) }
{
    table.get(key)
}

/// Whether a key is one of those known.
fn is_known(known: &[&str], key: &str) -> bool
    ensures { result ≡ list_any (bytes_eq key.now) (map (λ k. k.now) known.now) }
{
    for word in known {
        if is_text(key.as_bytes(), word.as_bytes()) {
            return true;
        }
    }
    false
}

/// The first key of a table that is not known.
fn unknown_key<'a>(table: &'a Table, known: &[&str]) -> Option<&'a String>
    ensures { option_map (λ key. string_bytes key.now) result
        ≡ find (λ key. not (list_any (bytes_eq key) (map (λ k. k.now) known.now)))
        (keys (table_view table.now)) }
{
    for key in table.keys() {
        if !is_known(known, key.as_str()) {
            return Some(key);
        }
    }
    None
}

/// Refuses a table with a key that is not known.
pub fn known_keys(
    alloc: Global,
    table: &Table,
    place: Place,
    known: &[&str],
) -> Result<(), WorldFault>
    ensures { Finds (unknown place (map (λ k. k.now) known.now) (table_view table.now))
        (λ _. Unit {0}) result }
{
    match unknown_key(table, known) {
        Some(key) => Err(place.wrong(alloc, key.as_str())),
        None => Ok(()),
    }
}

/// The value at a key that must be there.
pub fn required<'a>(
    alloc: Global,
    table: &'a Table,
    place: Place,
    key: &str,
) -> Result<&'a Value, WorldFault>
    ensures { Finds (missing place key.now (table_view table.now))
        (λ value. get_member key.now (table_view table.now) ≡ Some (view value.now)) result }
{
    match value_at(table, key) {
        Some(value) => Ok(value),
        None => Err(place.missing(alloc, key)),
    }
}

/// The text that stands at a key.
pub fn text_of<'a>(
    alloc: Global,
    value: &'a Value,
    place: Place,
    key: &str,
) -> Result<&'a str, WorldFault>
    ensures { MatchResult result (λ text. as_str (view value.now) ≡ Some text.now)
        (λ e. (as_str (view value.now) ≡ None)
        × ((e ≡ WorldFault.Memory) ⊎ (e ≡ WorldFault.Wrong (path place key.now)))) }
{
    match value.as_str() {
        Some(text) => Ok(text),
        None => Err(place.wrong(alloc, key)),
    }
}

/// The text that must stand at a key.
pub(crate) fn text_required(
    alloc: Global,
    table: &Table,
    place: Place,
    key: &str,
) -> Result<Text, WorldFault>
    ensures { let t = table_view table.now in Finds (required place key.now is_text t)
        (λ text. text_at key.now t ≡ Some text) result }
{
    let value = required(alloc, table, place, key)?;
    let text = text_of(alloc, value, place, key)?;
    let copy = Text::from_slice(alloc, text.as_bytes())?;
    Ok(copy)
}

/// What the members of a list are to be.
#[derive(Clone, Copy, Debug)]
pub enum ItemKind {
    /// Texts.
    Text,
    /// Tables.
    Table,
}

/// Whether a value is of a kind.
fn is_of(value: &Value, kind: ItemKind) -> bool
    ensures { result ≡ is_of_kind kind (view value.now) }
{
    match kind {
        ItemKind::Text => value.is_str(),
        ItemKind::Table => value.is_table(),
    }
}

/// A list that stands at a key, which has from `least` to `most` members.
#[tactic(auto, using(crate::proofs::Finding::checks, crate::proofs::Seen::lists))]
fn list_of<'a>(
    alloc: Global,
    value: &'a Value,
    place: Place,
    key: &str,
    least: usize,
    most: usize,
) -> Result<&'a [Value], WorldFault>
    ensures { Finds (wrong_unless (is_list least most (view value.now)) (path place key.now))
        (λ list. (as_array (view value.now) ≡ Some (items_view list.now))
        × (length list.now ≤ most)) result }
{
    let Some(list) = value.as_array() else {
        return Err(place.wrong(alloc, key));
    };
    if list.len() < least || most < list.len() {
        return Err(place.wrong(alloc, key));
    }
    Ok(list.as_slice())
}

/// Refuses what stands at a key, where it is no list of `least` to `most` members of a kind.
pub fn check_list(
    alloc: Global,
    table: &Table,
    place: Place,
    key: &str,
    least: usize,
    most: usize,
    kind: ItemKind,
) -> Result<(), WorldFault>
    ensures { Finds (list_fault place key.now least most kind (table_view table.now))
        (λ _. length (members_at key.now (table_view table.now)) ≤ most) result }
{
    let Some(value) = value_at(table, key) else {
        return Ok(());
    };
    let list = list_of(alloc, value, place, key, least, most)?;
    for (k, member) in list.iter().enumerate() {
        if !is_of(member, kind) {
            return Err(place.wrong_member(alloc, key, k));
        }
    }
    Ok(())
}

/// The members of the list at a key; none where no list stands there.
fn members_at<'a>(table: &'a Table, key: &str) -> &'a [Value]
    ensures { map (λ v. view v) result.now ≡ members_at key.now (table_view table.now) }
{
    match value_at(table, key) {
        Some(value) => match value.as_array() {
            Some(list) => list.as_slice(),
            None => &[],
        },
        None => &[],
    }
}

/// Adds a value that is a table.
fn push_table<'a>(tables: &mut Vec<&'a Table>, member: &'a Value) -> Result<(), AllocError>
    ensures { OnOk result (map (λ t. table_view t.now) tables.new.items
        ≡ map (λ t. table_view t.now) tables.old.items
        ++ option_to_list (as_table (view member.now))) }
{
    match member.as_table() {
        Some(member) => Ok(tables.push(member)?),
        None => Ok(()),
    }
}

/// The tables among the members of the list at a key.
pub fn tables_at<'a>(
    alloc: Global,
    table: &'a Table,
    key: &str,
) -> Result<Vec<&'a Table>, AllocError>
    ensures { IfOk result (λ tables. map (λ t. table_view t.now) tables.items
        ≡ tables_at key.now (table_view table.now)) }
{
    let mut tables = Vec::new(alloc);
    let members = members_at(table, key);
    for member in members {
        push_table(&mut tables, member)?;
    }
    Ok(tables)
}

/// Adds a value that is a text.
fn push_text<'a>(texts: &mut Vec<&'a str>, member: &'a Value) -> Result<(), AllocError>
    ensures { OnOk result (map (λ t. t.now) texts.new.items
        ≡ map (λ t. t.now) texts.old.items ++ option_to_list (as_str (view member.now))) }
{
    match member.as_str() {
        Some(member) => Ok(texts.push(member)?),
        None => Ok(()),
    }
}

/// The texts among the members of the list at a key.
pub(crate) fn texts_at<'a>(
    alloc: Global,
    table: &'a Table,
    key: &str,
) -> Result<Vec<&'a str>, AllocError>
    ensures { IfOk result (λ texts. map (λ t. t.now) texts.items
        ≡ texts_at key.now (table_view table.now)) }
{
    let mut texts = Vec::new(alloc);
    let members = members_at(table, key);
    for member in members {
        push_text(&mut texts, member)?;
    }
    Ok(texts)
}
