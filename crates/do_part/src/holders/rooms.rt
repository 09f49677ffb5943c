//! Room for objects, names and links.
ghost use Rattle.std.specs.Prelude.{◌≡◌, ◌-◌, ◌≤◌, ◌^◌, min, OnOk};
ghost use Rattle.do_part.specs.Holding.{most_names, SameHolders};

use crate::holders::Holders;
use std::alloc::AllocError;

/// How many objects a node can ever number: serials are from 1 to 2^63 - 1.
const SERIALS: u64 = 9_223_372_036_854_775_808;

/// How many names a node ever counts.
const NAMES: u64 = 4_611_686_018_427_387_904;

impl Holders {
    /// Makes room for so many objects, names and links at least, unless numbers run out.
    pub(crate) fn reserve(&mut self, objects: u64, names: u64, links: u64) -> Result<(), AllocError>
        ensures same { SameHolders self.old self.new }
        ensures objects { OnOk result
            (objects ≤ min self.new.store.spare (2 ^ 63 - self.new.store.next)) }
        ensures names { OnOk result
            (names ≤ min self.new.imports.spare (most_names - self.new.names)) }
        ensures links { OnOk result (links ≤ self.new.imports.links) }
    {
        // Most steps need none of them.
        if objects == 0 && names == 0 && links == 0 {
            return Ok(());
        }
        let next = self.store.next_serial();
        let serials = SERIALS.saturating_sub(next);
        let counts = NAMES.saturating_sub(self.names);
        if objects > serials || names > counts {
            return Err(AllocError);
        }
        self.store.reserve(objects)?;
        self.imports.reserve(names, links)
    }
}
