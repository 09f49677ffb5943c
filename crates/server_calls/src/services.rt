//! Calls of a server of services.
ghost use Rattle.std.specs.Prelude.{IfOk, IsTrue};
ghost use Rattle.do_services.specs.Core.{is_service};

use call_rows::{
    Part, call_of, copy_at, count_at, count_value, digits, list_at, no_call, refused, text_at,
    texts_at,
};
use do_base::{Text, Texts, Value, Values};
use do_grammar::is_text;
use do_native_acts::{Row, as_number, show_list};
use do_services::{Call, Service, Services, is_message, is_service};
use std::alloc::Global;
use std::test::Fail;

/// What a row calls.
#[derive(Clone, Copy)]
enum RowCall {
    IsMessage,
    IsService,
    Find,
    Items,
    CountItems,
    Slots,
    New,
    Add,
    Remove,
    Fill,
    Perform,
    Read,
}

/// The words of the calls.
const CALLS: [(&[u8], RowCall); 12] = [
    (b"is_message", RowCall::IsMessage),
    (b"is_service", RowCall::IsService),
    (b"find", RowCall::Find),
    (b"items", RowCall::Items),
    (b"count_items", RowCall::CountItems),
    (b"slots", RowCall::Slots),
    (b"new", RowCall::New),
    (b"add", RowCall::Add),
    (b"remove", RowCall::Remove),
    (b"fill", RowCall::Fill),
    (b"perform", RowCall::Perform),
    (b"read", RowCall::Read),
];

/// A server of services.
#[derive(Drop)]
pub(crate) struct ServiceCalls {
    services: Services,
    alloc: Global,
}

/// The item of a service of these parts, and its message.
fn names_of(parts: &Values) -> Result<(Text, Text), Fail> {
    let (item, message) = (text_at(parts, 0)?, text_at(parts, 1)?);
    let item = item.clone()?;
    Ok((item, message.clone()?))
}

/// The types that the service of these parts is sent, and those that it returns.
fn types_of(parts: &Values) -> Result<(Texts, Texts), Fail> {
    let send = texts_at(parts, 3)?;
    Ok((send, texts_at(parts, 4)?))
}

/// The service of these parts: item, message, port, types sent, types returned and user data.
fn service_of(parts: &Values) -> Result<Service, Fail> {
    let port = count_at(parts, 2)?;
    let user = copy_at(parts, 5)?;
    let (item, message) = names_of(parts)?;
    let (send, returned) = types_of(parts)?;
    Ok(Service {
        item,
        message,
        port,
        send,
        returned,
        user,
    })
}

/// A service, where it is one.
fn checked(service: Service) -> Result<Service, Fail>
    ensures { IfOk result (λ service. IsTrue (is_service service)) }
{
    if is_service(&service) {
        Ok(service)
    } else {
        Err(Fail::from("no service"))
    }
}

/// The service of these parts, where it is one.
fn good_service(parts: &Values) -> Result<Service, Fail>
    ensures { IfOk result (λ service. IsTrue (is_service service)) }
{
    checked(service_of(parts)?)
}

/// The service of these parts, under the item that a number is.
fn numbered_service(alloc: Global, parts: &Values, number: u16) -> Result<Service, Fail>
    ensures { IfOk result (λ service. IsTrue (is_service service)) }
{
    let item = digits(alloc, u64::from(number))?;
    let mut service = service_of(parts)?;
    service.item = item;
    checked(service)
}

/// Makes a call that is one value and names an item.
fn perform_on(services: &mut Services, word: &[u8], item: Text) -> Result<Value, Fail> {
    if is_text(word, b"named") {
        return Ok(services.perform(Call::Named { item })?);
    }
    if is_text(word, b"remove") {
        return Ok(services.perform(Call::Remove { item })?);
    }
    no_call()
}

/// Makes a call that is one value.
fn perform(services: &mut Services, args: &Values) -> Result<Value, Fail> {
    let word = text_at(args, 0)?.as_slice();
    if is_text(word, b"items") {
        return Ok(services.perform(Call::Items)?);
    }
    if is_text(word, b"add") {
        let service = good_service(list_at(args, 1)?)?;
        return Ok(services.perform(Call::Add { service })?);
    }
    perform_on(services, word, text_at(args, 1)?.clone()?)
}

/// The service of an item as a list, or nil.
fn find(services: &Services, args: &Values) -> Result<Value, Fail> {
    match services.find(text_at(args, 0)?) {
        Some(service) => Ok(service.shown()?),
        None => Ok(Value::Nil),
    }
}

impl ServiceCalls {
    /// A server without services.
    pub(crate) fn new(alloc: Global) -> ServiceCalls {
        ServiceCalls {
            services: Services::new(alloc),
            alloc,
        }
    }

    /// Adds a service, and tells whether its item is new.
    fn add(&mut self, args: &Values) -> Result<Value, Fail> {
        let service = good_service(list_at(args, 0)?)?;
        match self.services.add(service) {
            Ok(new) => Ok(as_number(new)),
            Err(fault) => refused(self.alloc, fault),
        }
    }

    /// Adds the service of these parts under as many items, and tells how many were new.
    fn fill(&mut self, args: &Values) -> Result<Value, Fail> {
        let (count, parts) = (count_at(args, 0)?, list_at(args, 1)?);
        let mut new: i64 = 0;
        for number in 0..count {
            let service = numbered_service(self.alloc, parts, number)?;
            if self.services.add(service)? {
                new = new.saturating_add(1);
            }
        }
        Ok(Value::Num(new))
    }

    /// Takes the core whose slots these are, and tells whether there is one.
    fn read(&mut self, args: &Values) -> Result<Value, Fail> {
        let Some(services) = Services::from_slots(list_at(args, 0)?)? else {
            return Ok(as_number(false));
        };
        self.services = services;
        Ok(as_number(true))
    }

    /// Begins anew without services.
    fn begin(&mut self) -> Value {
        self.services = Services::new(self.alloc);
        Value::Nil
    }

    /// Takes out a service, and tells whether it was there.
    fn remove(&mut self, args: &Values) -> Result<Value, Fail> {
        let item = text_at(args, 0)?;
        Ok(as_number(self.services.remove(item)))
    }

    /// The items in order.
    fn items(&self) -> Result<Value, Fail> {
        Ok(show_list::<Text>(&self.services.items()?)?)
    }

    /// How many items there are.
    fn count_items(&self) -> Result<Value, Fail> {
        count_value(self.services.items()?.len())
    }

    /// The slots that keep the server.
    fn slots(&self) -> Result<Value, Fail> {
        Ok(Value::List(self.services.to_slots()?))
    }
}

/// Whether a text is a message.
fn tells_message(args: &Values) -> Result<Value, Fail> {
    Ok(as_number(is_message(text_at(args, 0)?)))
}

/// Whether parts are a service.
fn tells_service(args: &Values) -> Result<Value, Fail> {
    let service = service_of(list_at(args, 0)?)?;
    Ok(as_number(is_service(&service)))
}

impl Part for ServiceCalls {
    fn call(&mut self, word: &[u8], args: &Values) -> Result<Value, Fail> {
        match call_of(&CALLS, word) {
            Some(RowCall::IsMessage) => tells_message(args),
            Some(RowCall::IsService) => tells_service(args),
            Some(RowCall::Find) => find(&self.services, args),
            Some(RowCall::Items) => self.items(),
            Some(RowCall::CountItems) => self.count_items(),
            Some(RowCall::Slots) => self.slots(),
            Some(RowCall::New) => Ok(self.begin()),
            Some(RowCall::Add) => self.add(args),
            Some(RowCall::Remove) => self.remove(args),
            Some(RowCall::Fill) => self.fill(args),
            Some(RowCall::Perform) => perform(&mut self.services, args),
            Some(RowCall::Read) => self.read(args),
            None => no_call(),
        }
    }
}
