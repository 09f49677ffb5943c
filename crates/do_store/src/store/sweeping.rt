//! Objects taken out that nothing holds.
ghost use Rattle.std.specs.Prelude.{◌≡◌, ◌≢◌, [], ℕ, MatchOption, Some, map};
ghost use Rattle.do_store.specs.Names.{Stored, named_in, values_name, find_stored, replaced};
ghost use Rattle.do_store.specs.Books.{Books, seen};

use super::{Freed, Store};
use crate::counting::{is_idle, lower_values};
use crate::object::Object;
use crate::table::Table;
use crate::waiting::Waiting;
use do_base::Oid;

/// Takes the next object that nothing holds or names out of the table.
fn next_idle(table: &mut Table, queue: &mut Waiting) -> Option<Object>
    ensures books { (port : ℕ) → Books port table.old.objects table.old.spare queue.old (λ n. 0)
        → MatchOption result
        (Books port table.new.objects table.new.spare queue.new (λ n. 0)
        × (map seen table.new.objects ≡ map seen table.old.objects)
        × ((n : ℕ) (o : Stored) → find_stored (map seen table.old.objects) n ≡ Some o → o.held ≡ 0
        → named_in port n (map seen table.old.objects) ≢ 0))
        (λ o. Books port table.new.objects table.new.spare queue.new
        (λ n. values_name port n o.slots)
        × (map seen table.new.objects ≡ replaced o.serial (λ s. []) (map seen table.old.objects))
        × (find_stored (map seen table.old.objects) o.serial ≡ Some (seen o)) × (o.held ≡ 0)
        × (named_in port o.serial (map seen table.old.objects) ≡ 0)) }
    ensures next { table.new.next ≡ table.old.next }
    ensures spare { table.new.spare ≡ table.old.spare }
{
    while let Some(serial) = queue.take() {
        let Some(object) = table.get(serial) else {
            continue;
        };
        let held = object.held;
        let named = object.named;
        let idle = is_idle(held, named, false);
        if idle {
            return table.remove(serial);
        }
        table.set_counts(serial, held, named, false);
    }
    None
}

impl Store {
    /// Takes out an object with no holder that no slot names. None exactly where there is none.
    ///
    /// It looks at objects that lost their last holder or name, and never through all of them. Used
    /// until None it leaves what `sweeping_leaves_kept` says.
    pub fn sweep(&mut self) -> Option<Freed>
        ensures freed { MatchOption result
            ((self.new.objects ≡ self.old.objects)
            × ((n : ℕ) (o : Stored) → find_stored self.old.objects n ≡ Some o → o.held ≡ 0
            → named_in self.old.node n self.old.objects ≢ 0))
            (λ f. (f.oid.node ≡ self.old.node)
            × (self.new.objects ≡ replaced f.oid.serial (λ s. []) self.old.objects)
            × (find_stored self.old.objects f.oid.serial
            ≡ Some (record {
              serial = f.oid.serial;
              class = f.class;
              slots = f.slots;
              held =
                  0;
            }))
            × (named_in self.old.node f.oid.serial self.old.objects ≡ 0)) }
        ensures node { self.new.node ≡ self.old.node }
        ensures next { self.new.next ≡ self.old.next }
        ensures spare { self.new.spare ≡ self.old.spare }
    {
        let port = self.node.port();
        let object = next_idle(&mut self.table, &mut self.queue)?;
        let Object {
            serial,
            class,
            slots,
            ..
        } = object;
        lower_values(&mut self.table, &mut self.queue, port, &slots);
        Some(Freed {
            oid: Oid {
                node: self.node,
                serial,
            },
            class,
            slots,
        })
    }
}
