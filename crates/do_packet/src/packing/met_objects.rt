//! The objects that a message has met, copied or named, are found by an ordered map beside
//! their list. A peer chooses the serials of its own objects, and it may pick those among the
//! sender's. So it could crowd objects into a few places of a table of hashes with a fixed
//! seed, as the kit's has one. With the map no choice of objects is slow, and none has to be
//! timed for it; each object costs the logarithm of how many there are.

ghost use Rattle.std.specs.Prelude.{◌≡◌, ◌<◌, ◌^◌, [], length, OnErr, OnOk, IfOk};
ghost use Rattle.do_packet.specs.Met.{met_one, place};

use do_base::{Oid, Oids};
use std::alloc::{AllocError, Global};
use std::collections::BTreeMap;
use std::marker::Model;

/// Objects in the order in which they were met, each once.
#[derive(Drop)]
pub(crate) struct MetObjects {
    oids: Oids,
    // A peer chooses the serials of its own objects, and picks among the sender's. A map in order
    // stays fast whatever they are, where a table of hashes with a fixed seed would not.
    places: BTreeMap<Oid, usize>,
}

impl Model for MetObjects {
    ghost use Rattle.std.specs.Prelude.{List};
    ghost use Rattle.do_base.specs.names.Names.{ObjectName};
    ghost use Rattle.do_packet.specs.walk.Places.{ArePlaces};

    ghost Value = { List ObjectName };

    ghost view = { λ m. m.oids };

    ghost invariant = { λ m. ArePlaces m.oids m.places };
}

impl MetObjects {
    /// No object.
    pub(crate) fn new(alloc: Global) -> MetObjects
        ensures { result ≡ [] }
    {
        MetObjects {
            oids: Oids::new(alloc),
            places: BTreeMap::new(alloc),
        }
    }

    /// The objects, in order.
    pub(crate) fn as_slice(&self) -> &[Oid]
        ensures { result.now ≡ self.now }
    {
        self.oids.as_slice()
    }

    /// How many objects there are.
    pub(crate) fn len(&self) -> usize
        ensures { result ≡ length self.now }
    {
        self.oids.len()
    }

    /// Meets an object, and gives its place, from 0. If memory runs out, nothing changes.
    pub(crate) fn meet(&mut self, oid: Oid) -> Result<usize, AllocError>
        ensures met { OnOk result (self.new ≡ met_one self.old oid) }
        ensures place { IfOk result (λ at. at ≡ place self.old oid) }
        ensures err { OnErr result (self.new ≡ self.old) }
    {
        if let Some(at) = self.places.get(&oid) {
            return Ok(*at);
        }
        let at = self.oids.len();
        self.oids.push(oid)?;
        match self.places.insert(oid, at) {
            Ok(_) => Ok(at),
            Err(_) => {
                self.oids.pop();
                Err(AllocError)
            }
        }
    }
}
