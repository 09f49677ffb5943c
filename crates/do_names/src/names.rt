ghost use Rattle.std.specs.Prelude.{◌≡◌, [], List, IsTrue, IfOk, IfErr, IfSome, OnErr, Some, None};
ghost use Rattle.std.specs.{Prelude.map, List.list_all};
ghost use Rattle.do_native_acts.specs.{Faults.FaultOf, Rows.listed};
ghost use Rattle.do_table.specs.Entries.{value_of};
ghost use Rattle.do_names.specs.Core.{is_entry, from_slots, to_slots, row, registered};
ghost use Rattle.do_names.specs.{Core.unregistered, History.after, Meaning.told};
ghost use Rattle.do_names.specs.declared.calls.Call.{Call};

use crate::entries::{Entries, Entry, row};
use do_base::{Text, Value, Values};
use do_native_acts::{CoreFault, read_rows};
use do_table::Table;
use std::alloc::{AllocError, Global};
use std::marker::Model;

/// The most names of a server.
const MAX_NAMES: usize = 512;

/// The core of a server: names and their ports, the first accepted first; at most 512, and none
/// twice.
///
/// Contracts see the list of them.
#[derive(Drop)]
pub struct Names {
    ports: Table<u16>,
}

impl Model for Names {
    ghost use Rattle.std.specs.{Prelude.{List, ℕ, IsTrue}, Coded.{coded×, coded_ℕ, coded_list}};
    ghost use Rattle.do_names.specs.Core.{are_names};

    ghost Value = { List (List ℕ × ℕ) };

    ghost coded = { coded_list (coded× (coded_list coded_ℕ) coded_ℕ) };

    ghost view = { λ n. n.ports };

    ghost invariant = { λ n. IsTrue (are_names n.ports) };
}

/// Whether each has a name that is not empty, and a port.
fn are_entries(entries: &Entries) -> bool
    ensures { result ≡ list_all is_entry entries.now }
{
    for entry in entries.as_slice() {
        if entry.name.is_empty() || entry.port == 0 {
            return false;
        }
    }
    true
}

/// The entries of a table as a slot keeps them.
fn shown(ports: &Table<u16>) -> Result<Value, AllocError>
    ensures { IfOk result (λ value. value ≡ listed (map row ports.now)) }
{
    let count = ports.len();
    if count == 0 {
        return Ok(Value::Nil);
    }
    let mut rows = Values::with_capacity(ports.allocator(), count)?;
    for at in 0..count {
        let (name, port) = ports.entry(at);
        rows.push(row(name, *port)?)?;
    }
    Ok(Value::List(rows))
}

impl Names {
    /// A server without names.
    pub fn new(alloc: Global) -> Names
        ensures { result ≡ [] }
    {
        Names {
            ports: Table::new(alloc),
        }
    }

    /// The core whose slots these are; none exactly where no core has these slots.
    #[tactic(auto, using(crate::proofs::SlotsExact::read_back))]
    pub fn from_slots(slots: &Values) -> Result<Option<Names>, AllocError>
        ensures value { IfOk result (λ read. read ≡ from_slots slots.now) }
        ensures exact { IfOk result (λ read. IfSome read (λ names. to_slots names ≡ slots.now)) }
    {
        let [slot] = slots.as_slice() else {
            return Ok(None);
        };
        let Some(entries) = read_rows::<Entry>(slots.allocator(), slot)? else {
            return Ok(None);
        };
        if entries.len() > MAX_NAMES || !are_entries(&entries) {
            return Ok(None);
        }
        match Table::of(entries.allocator(), entries.as_slice())? {
            Some(ports) => Ok(Some(Names { ports })),
            None => Ok(None),
        }
    }

    /// The slots of the core.
    #[tactic(auto, using(crate::proofs::SlotsExact::from_to))]
    pub fn to_slots(&self) -> Result<Values, AllocError>
        ensures value { IfOk result (λ slots. slots ≡ to_slots self.now) }
        ensures exact { IfOk result (λ slots. from_slots slots ≡ Some self.now) }
    {
        let mut slots = Values::with_capacity(self.ports.allocator(), 1)?;
        slots.push(shown(&self.ports)?)?;
        Ok(slots)
    }

    /// Gives a name its port, and answers whether the name has that port now: a name keeps the port
    /// that it has.
    ///
    /// Where there are 512 names a new one is refused as `Full(512)`. On any error the names are
    /// unchanged.
    pub fn register(&mut self, name: Text, port: u16) -> Result<bool, CoreFault>
        requires { IsTrue (is_entry (name, port)) }
        ensures done { IfOk result (λ has. registered self.old name port ≡ Some (self.new, has)) }
        ensures fault { IfErr result (FaultOf 512 (registered self.old name port)) }
        ensures err { OnErr result (self.new ≡ self.old) }
    {
        match self.lookup(&name) {
            Some(has) => Ok(has == port),
            None => {
                if self.ports.len() >= MAX_NAMES {
                    return Err(CoreFault::Full(MAX_NAMES as u64));
                }
                self.ports.add(name, port)?;
                Ok(true)
            }
        }
    }

    /// The port of the entry with a name.
    fn port_of(&self, name: &Text) -> Option<u16>
        ensures { result ≡ value_of self.now name.now }
    {
        self.ports.get(name).copied()
    }

    /// The port of a name, as the calls made so far tell it; none where it has none.
    pub fn lookup(&self, name: &Text) -> Option<u16>
        ensures value { result ≡ value_of self.now name.now }
        ensures meaning { (h : List Call) → self.now ≡ after h → result ≡ told h name.now }
    {
        self.port_of(name)
    }

    /// Takes out a name, and answers whether it was there.
    pub fn unregister(&mut self, name: &Text) -> bool
        ensures { (self.new, result) ≡ unregistered self.old name.now }
    {
        self.ports.remove(name).is_some()
    }
}
