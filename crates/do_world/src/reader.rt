//! Worlds, read from text.
ghost use Rattle.std.specs.Prelude.{◌≡◌, ◌⊎◌, ◌≤◌, Err, IfErr, IfOk, MatchResult, None, Ok, Some};
ghost use Rattle.std.specs.Prelude.{codes, length};
ghost use Rattle.toml.specs.View.{table_view, view};
ghost use Rattle.do_document.specs.{Checks.required, Document.tables_at, Finding.{Finds, OrMemory}};
ghost use Rattle.do_document.specs.declared.fault.WorldFault.{WorldFault};
ghost use Rattle.do_world.specs.Faults.{fault_of, is_one, tables_fault, top_fault};
ghost use Rattle.do_world.specs.{Reading.{IsWorldText, document, first_fault}, Sound.IsSound};
ghost use Rattle.do_world.specs.{Worlds.world_of, declared.world.World.World};

use crate::method_codes::codes_for;
use crate::seats::seats_of;
use crate::world::World;
use do_behave::Program;
use do_carried::{codes_are_ranged, rules_are_ranged};
use do_document::{
    Classes, ItemKind, Place, WorldFault, check_list, classes_of, known_keys, required, tables_at,
};
use std::alloc::Global;
use toml::{Table, Value};

/// The keys that a document may have.
const KEYS: [&str; 3] = ["class", "node", "version"];

/// The most classes of a world.
const MOST_CLASSES: usize = 256;

/// The most nodes of a world.
const MOST_NODES: usize = 64;

/// The document that bytes are, if they are UTF-8 and TOML.
fn document_of(alloc: Global, bytes: &[u8]) -> Result<Table, WorldFault>
    ensures { MatchResult result (λ t. document bytes.now ≡ Some (table_view t))
        (λ e. (e ≡ WorldFault.Memory) ⊎ ((document bytes.now ≡ None) × (e ≡ WorldFault.Toml))) }
{
    match toml::table_from_slice(alloc, bytes) {
        Ok(table) => Ok(table),
        Err(e) => {
            if e.is_memory() {
                Err(WorldFault::Memory)
            } else {
                Err(WorldFault::Toml)
            }
        }
    }
}

/// Whether a value is the number 1.
fn is_one(value: &Value) -> bool
    ensures { result ≡ is_one (view value.now) }
{
    match value.as_integer() {
        Some(number) => number == 1,
        None => false,
    }
}

/// Refuses a document of another version than 1.
fn check_version(alloc: Global, document: &Table) -> Result<(), WorldFault>
    ensures { let d = table_view document.now in
        Finds (required Place.Top (codes "version") is_one d) (λ _. Unit {0}) result }
{
    let version = required(alloc, document, Place::Top, "version")?;
    if !is_one(version) {
        return Err(Place::Top.wrong(alloc, "version"));
    }
    Ok(())
}

/// Refuses a document in which no list of tables, from one to `most`, stands at a key.
fn check_tables(alloc: Global, document: &Table, key: &str, most: usize) -> Result<(), WorldFault>
    ensures { let d = table_view document.now in
        Finds (tables_fault key.now most d)
        (λ _. (1 ≤ length (tables_at key.now d)) × (length (tables_at key.now d) ≤ most)) result }
{
    required(alloc, document, Place::Top, key)?;
    check_list(alloc, document, Place::Top, key, 1, most, ItemKind::Table)
}

/// Refuses a document whose keys, version or lists are not those of a world.
fn check_top(alloc: Global, document: &Table) -> Result<(), WorldFault>
    ensures { let d = table_view document.now in Finds (top_fault d) (λ _.
        (length (tables_at (codes "class") d) ≤ 256) × (1 ≤ length (tables_at (codes "node") d))
        × (length (tables_at (codes "node") d) ≤ 64)) result }
{
    known_keys(alloc, document, Place::Top, &KEYS)?;
    check_version(alloc, document)?;
    check_tables(alloc, document, "class", MOST_CLASSES)?;
    check_tables(alloc, document, "node", MOST_NODES)
}

/// The world that a document says.
fn world_of(alloc: Global, document: &Table) -> Result<World, WorldFault>
    ensures { Finds (fault_of (table_view document.now))
        (λ world. (world ≡ world_of (table_view document.now)) × IsSound world) result }
{
    check_top(alloc, document)?;
    let classes = tables_at(alloc, document, "class")?;
    let listed = classes.as_slice();
    let made = classes_of(alloc, listed)?;
    let codes = codes_for(alloc, listed, &made.table, &made.kinds)?;
    let seats = tables_at(alloc, document, "node")?;
    let nodes = seats_of(alloc, seats.as_slice(), &made.table)?;
    codes_are_ranged(&codes);
    rules_are_ranged(&made.rules);
    let program = Program::new(&made.table, codes);
    let Classes {
        table,
        kinds,
        rules,
    } = made;
    Ok(World {
        table,
        kinds,
        rules,
        program,
        nodes,
    })
}

/// Reads the world that a text says, in TOML 1.1.
///
/// What such a text is stands in docs/FORMATS.md. A text with a fault is refused with the first,
/// in the order that stands there; `Memory` may come in place of either answer. A machine can open
/// with every world that is read.
pub fn read_world(alloc: Global, bytes: &[u8]) -> Result<World, WorldFault>
    ensures world { IfOk result (IsWorldText bytes.now) }
    ensures fault { IfErr result
        (λ fault. (fault ≡ WorldFault.Memory) ⊎ (first_fault bytes.now ≡ Some fault)) }
    ensures accepts { (world : World) → IsWorldText bytes.now world → OrMemory (Ok world) result }
    ensures refuses { (fault : WorldFault) → first_fault bytes.now ≡ Some fault
        → OrMemory (Err fault) result }
    ensures sound { IfOk result IsSound }
{
    let document = document_of(alloc, bytes)?;
    world_of(alloc, &document)
}
