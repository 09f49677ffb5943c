//! All that a node frees and leaves after a step.
ghost use Rattle.std.specs.FinMap as map;
ghost use Rattle.std.specs.Prelude.{◌≡◌, ℕ, ◌+◌, ◌≤◌, Bool, [], length, vec_capacity, map as each};
ghost use Rattle.std.specs.Prelude.{List, OnOk};
ghost use Rattle.do_machine.specs.{declared.node.Node.Node, held.Leaving.leaving};
ghost use Rattle.do_leaving.specs.{Counted.Counted, Leavers.{classes_left, leavers, told}};
ghost use Rattle.do_leaving.specs.{Left.IsEffect, Sweeping.{TakenOut, foreign_names}};
ghost use Rattle.do_import.specs.Imported.{all_off};
ghost use Rattle.do_store.specs.Names.{Stored};

use crate::dropping::leave_all;
use crate::sweeping::sweep_all;
use do_base::Oid;
use do_import::Imports;
use do_store::Store;
use std::alloc::AllocError;

/// Empties the lists, and makes room in them for all that `leave` may tell once so many further
/// objects are stored, and so many are received.
///
/// Neither list has less room than before. If memory runs out, that is all, and nothing else is
/// changed.
pub fn make_room(
    store: &Store,
    imports: &Imports,
    objects: u64,
    received: u64,
    freed: &mut Vec<u64>,
    left: &mut Vec<(Oid, u64)>,
) -> Result<(), AllocError>
    ensures freed { OnOk result (length store.now.objects + objects ≤ vec_capacity freed.new) }
    ensures none_freed { freed.new.items ≡ [] }
    ensures none_left { left.new.items ≡ [] }
    ensures left { OnOk result (map.len imports.now.received + received
        ≤ vec_capacity left.new) }
    ensures freed_kept { vec_capacity freed.old ≤ vec_capacity freed.new }
    ensures left_kept { vec_capacity left.old ≤ vec_capacity left.new }
{
    freed.clear();
    left.clear();
    let Some(stored) = store.bound().checked_add(objects) else {
        return Err(AllocError);
    };
    let Some(received) = imports.len().checked_add(received) else {
        return Err(AllocError);
    };
    freed.reserve(stored as usize)?;
    left.reserve(received as usize)
}

/// Frees the own objects that a node does not keep, and leaves the foreign ones to which it then no
/// longer refers.
///
/// The lists then tell what was freed, by rising serial, and what was left, by rising port and
/// serial, each with the number of times that it was received: so many names go back to its home.
/// No memory is taken, and the time depends on what is freed and left alone.
pub fn leave(
    store: &mut Store,
    imports: &mut Imports,
    freed: &mut Vec<u64>,
    left: &mut Vec<(Oid, u64)>,
)
    requires room { length store.old.objects ≤ vec_capacity freed.old }
    requires more { map.len imports.old.received ≤ vec_capacity left.old }
    ensures leaves { (entry : ℕ → ℕ → Bool) (n : Node) → Counted entry n store.old imports.old
        → IsEffect entry n (leaving entry n) store.new imports.new freed.new.items left.new.items }
    ensures sweeps { (gone : List Stored)
        × TakenOut store.old.node store.old.objects gone store.new.objects
        × (imports.new.uses ≡ all_off imports.old.uses (foreign_names store.old.node gone)) }
    ensures received { imports.new.received
        ≡ map.retain_keys imports.old.received (map.contains_key imports.new.uses) }
    ensures told { left.new.items
        ≡ each told (leavers imports.old.received imports.new.uses) }
    ensures same { imports.new ≡ record imports.old {
      received = imports.new.received;
      uses = imports.new.uses;
      classes = classes_left imports.old imports.new.received;
      spare = imports.new.spare;
      links = imports.new.links;
    } }
    ensures node { store.new.node ≡ store.old.node }
    ensures next { store.new.next ≡ store.old.next }
    ensures spare { store.new.spare ≡ store.old.spare }
    ensures room_left { imports.old.spare ≤ imports.new.spare }
    ensures links_left { imports.old.links ≤ imports.new.links }
    ensures freed_room { vec_capacity freed.new ≡ vec_capacity freed.old }
    ensures left_room { vec_capacity left.new ≡ vec_capacity left.old }
{
    sweep_all(store, imports, freed);
    left.clear();
    leave_all(imports, left);
}
