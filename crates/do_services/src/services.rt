ghost use Rattle.std.specs.Prelude.{◌≡◌, [], List, IsTrue, IfOk, IfErr, IfSome, OnErr, Some, None};
ghost use Rattle.std.specs.{Prelude.{map, is_some}, Map.keys_of, Option.option_copied};
ghost use Rattle.do_native_acts.specs.{Faults.FaultOf, Rows.{listed, read_all, rows_in}};
ghost use Rattle.do_grammar.specs.Words.{◌>>?◌};
ghost use Rattle.do_table.specs.Entries.{once, value_of};
ghost use Rattle.do_services.specs.Core.{from_slots, is_service, keyed, row, service_in, to_slots};
ghost use Rattle.do_services.specs.Core.{few_services, of_core, with_service, without};
ghost use Rattle.do_services.specs.{History.after, Meaning.told, declared.calls.Call.Call};

use crate::service::Service;
use do_base::{Text, Texts, Value, Values};
use do_native_acts::{CoreFault, Row};
use do_table::Table;
use std::alloc::{AllocError, Global};
use std::marker::Model;

/// The most services of a server.
const MAX_SERVICES: usize = 256;

/// The core of a server: services by their items, the first accepted first; at most 256, and no
/// item twice.
///
/// Contracts see the list of them, each with its item.
#[derive(Drop)]
pub struct Services {
    services: Table<Service>,
}

impl Model for Services {
    ghost use Rattle.do_services.specs.contracts.service.Service as service;
    ghost use Rattle.std.specs.{Prelude.{List, IsTrue}, Coded.codes};
    ghost use Rattle.do_services.specs.Core.{Entry, are_services};

    ghost Value = { List Entry };

    ghost coded = { Prim.hlevel (codes, service.the_row.coded) };

    ghost view = { λ s. s.services };

    ghost invariant = { λ s. IsTrue (are_services s.services) };
}

/// The table of the services that values are; none where one of them is none, or an item is there
/// twice.
fn read_each(values: &Values) -> Result<Option<Table<Service>>, AllocError>
    ensures { IfOk result (λ table.
        table ≡ (read_all service_in values.now >>? λ ss. once (map keyed ss))) }
{
    let mut table = Table::new(values.allocator());
    for value in values.as_slice() {
        let Some(service) = Service::read(value)? else {
            return Ok(None);
        };
        if !table.add(service.item.clone()?, service)? {
            return Ok(None);
        }
    }
    Ok(Some(table))
}

/// The table of the services that a slot holds.
fn read_slot(alloc: Global, slot: &Value) -> Result<Option<Table<Service>>, AllocError>
    ensures { IfOk result (λ table.
        table ≡ (rows_in service_in slot.now >>? λ ss. once (map keyed ss))) }
{
    match slot {
        Value::Nil => Ok(Some(Table::new(alloc))),
        Value::List(values) if !values.is_empty() => read_each(values),
        _ => Ok(None),
    }
}

/// The table, where it has at most 256 services.
fn limited(services: Table<Service>) -> Option<Table<Service>>
    ensures { result ≡ few_services services }
{
    if services.len() > MAX_SERVICES {
        return None;
    }
    Some(services)
}

/// The services that a slot holds, each under its item, where they are at most 256 and no item is
/// there twice.
fn read_limited(alloc: Global, slot: &Value) -> Result<Option<Table<Service>>, AllocError>
    ensures { IfOk result (λ table.
        table ≡ (rows_in service_in slot.now >>? (λ ss. once (map keyed ss)) >>? few_services)) }
{
    match read_slot(alloc, slot)? {
        Some(services) => Ok(limited(services)),
        None => Ok(None),
    }
}

/// The table of the services that a slot holds, where they can be a core's.
fn read_core(alloc: Global, slot: &Value) -> Result<Option<Table<Service>>, AllocError>
    ensures { IfOk result (λ table.
        table ≡ (rows_in service_in slot.now >>? λ ss. of_core (map keyed ss))) }
{
    read_limited(alloc, slot)
}

/// The services of a table as a slot keeps them.
fn shown(services: &Table<Service>) -> Result<Value, AllocError>
    ensures { IfOk result (λ value. value ≡ listed (map (λ e. row e.1) services.now)) }
{
    let count = services.len();
    if count == 0 {
        return Ok(Value::Nil);
    }
    let mut rows = Values::with_capacity(services.allocator(), count)?;
    for at in 0..count {
        let (_, service) = services.entry(at);
        rows.push(service.shown()?)?;
    }
    Ok(Value::List(rows))
}

impl Services {
    /// A server without services.
    pub fn new(alloc: Global) -> Services
        ensures { result ≡ [] }
    {
        Services {
            services: Table::new(alloc),
        }
    }

    /// The core whose slots these are.
    fn read(slots: &Values) -> Result<Option<Services>, AllocError>
        ensures { IfOk result (λ read. read ≡ from_slots slots.now) }
    {
        let [slot] = slots.as_slice() else {
            return Ok(None);
        };
        match read_core(slots.allocator(), slot)? {
            Some(services) => Ok(Some(Services { services })),
            None => Ok(None),
        }
    }

    /// The core whose slots these are; none exactly where no core has these slots.
    pub fn from_slots(slots: &Values) -> Result<Option<Services>, AllocError>
        ensures value { IfOk result (λ read. read ≡ from_slots slots.now) }
        ensures exact { IfOk result (λ read. IfSome read (λ core. to_slots core ≡ slots.now)) }
    {
        Services::read(slots)
    }

    /// The slots of the core.
    fn slots(&self) -> Result<Values, AllocError>
        ensures { IfOk result (λ slots. slots ≡ to_slots self.now) }
    {
        let mut slots = Values::with_capacity(self.services.allocator(), 1)?;
        slots.push(shown(&self.services)?)?;
        Ok(slots)
    }

    /// The slots of the core.
    pub fn to_slots(&self) -> Result<Values, AllocError>
        ensures value { IfOk result (λ slots. slots ≡ to_slots self.now) }
        ensures exact { IfOk result (λ slots. from_slots slots ≡ Some self.now) }
    {
        let _ = &self.services;
        self.slots()
    }

    /// The items, the first accepted first.
    pub fn items(&self) -> Result<Texts, AllocError>
        ensures { IfOk result (λ items. items ≡ keys_of self.now) }
    {
        self.services.names()
    }

    /// Whether an item has a service.
    fn has(&self, item: &Text) -> bool
        ensures { result ≡ is_some (value_of self.now item.now) }
    {
        self.services.get(item).is_some()
    }

    /// Adds a service, and answers whether its item is new: an item keeps the service that it has.
    ///
    /// Where there are 256 services a new one is refused as `Full(256)`. On any error the services
    /// are unchanged.
    pub fn add(&mut self, service: Service) -> Result<bool, CoreFault>
        requires { IsTrue (is_service service) }
        ensures done { IfOk result (λ new. with_service self.old service ≡ Some (self.new, new)) }
        ensures fault { IfErr result (FaultOf 256 (with_service self.old service)) }
        ensures err { OnErr result (self.new ≡ self.old) }
    {
        if self.has(&service.item) {
            return Ok(false);
        }
        if self.services.len() >= MAX_SERVICES {
            return Err(CoreFault::Full(MAX_SERVICES as u64));
        }
        self.services.add(service.item.clone()?, service)?;
        Ok(true)
    }

    /// The service of an item.
    fn service_of(&self, item: &Text) -> Option<&Service>
        ensures { option_copied result ≡ value_of self.now item.now }
    {
        self.services.get(item)
    }

    /// The service of an item, as the calls made so far tell it; none where it has none.
    pub fn find(&self, item: &Text) -> Option<&Service>
        ensures value { option_copied result ≡ value_of self.now item.now }
        ensures meaning { (h : List Call) → self.now ≡ after h
            → option_copied result ≡ told h item.now }
    {
        self.service_of(item)
    }

    /// Takes out a service, and answers whether it was there.
    pub fn remove(&mut self, item: &Text) -> bool
        ensures { (self.new, result) ≡ without self.old item.now }
    {
        self.services.remove(item).is_some()
    }
}
