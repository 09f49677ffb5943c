//! A service, as a slot keeps it.
ghost use Rattle.std.specs.{Prelude.{◌≡◌, ◌∷◌, [], IfOk}, Option.option_copied};
ghost use Rattle.do_services.specs.Core.{is_message, is_service, message_in, service_of};

use do_base::{Text, Texts, Value, Values, copy_value};
use do_grammar::is_name;
use do_native_acts::{Row, are_types, port_in, show_list, types_in};
use std::alloc::AllocError;

/// The most bytes of a message.
const LONGEST_MESSAGE: usize = 40;

/// What a provider does for others: the message that it is sent, with `:userData:error:` behind it,
/// the port at which it is the root, the types that it takes and gives, and what is handed to it.
#[derive(Debug, Drop)]
pub struct Service {
    /// What the service is known by.
    pub item: Text,
    /// How the message to the provider begins: a name of at most 40 bytes.
    pub message: Text,
    /// The port of the provider's node.
    pub port: u16,
    /// The types of which the pasteboard must have one.
    pub send: Texts,
    /// The types that are returned.
    pub returned: Texts,
    /// What is handed to the provider.
    pub user: Value,
}

/// Whether this can begin a message to a provider: a name of at most 40 bytes.
pub fn is_message(message: &Text) -> bool
    ensures { result ≡ is_message message.now }
{
    is_name(message.as_slice()) && message.len() <= LONGEST_MESSAGE
}

/// Whether this is a service: its message is a name of at most 40 bytes, its port is not 0, and
/// both its lists are types of a pasteboard.
pub fn is_service(service: &Service) -> bool
    ensures { result ≡ is_service service.now }
{
    service.port != 0
        && is_message(&service.message)
        && are_types(&service.send)
        && are_types(&service.returned)
}

/// The message that a value is.
fn message_in(value: &Value) -> Option<&Text>
    ensures { option_copied result ≡ message_in value.now }
{
    value.text().filter(|message| is_message(message))
}

/// The service of these parts.
fn service_with(
    item: &Text,
    message: &Text,
    port: u16,
    types: (Texts, Texts),
    user: &Value,
) -> Result<Service, AllocError>
    ensures { IfOk result (λ service. service ≡ record {
      item = item.now;
      message = message.now;
      port = port;
      send = types.0;
      returned = types.1;
      user = user.now;
    }) }
{
    let (send, returned) = types;
    Ok(Service {
        item: item.clone()?,
        message: message.clone()?,
        port,
        send,
        returned,
        user: copy_value(user)?,
    })
}

/// The service whose parts these values are.
fn service_of(
    item: &Value,
    message: &Value,
    port: &Value,
    send: &Value,
    returned: &Value,
    user: &Value,
) -> Result<Option<Service>, AllocError>
    ensures { IfOk result (λ service. service ≡ service_of (item.now ∷ message.now ∷ port.now
        ∷ send.now ∷ returned.now ∷ user.now ∷ [])) }
{
    let Some(item) = item.text() else {
        return Ok(None);
    };
    let Some(message) = message_in(message) else {
        return Ok(None);
    };
    let Some(port) = port_in(port) else {
        return Ok(None);
    };
    let Some(send) = types_in(send)? else {
        return Ok(None);
    };
    match types_in(returned)? {
        Some(returned) => {
            let types = (send, returned);
            Ok(Some(service_with(item, message, port, types, user)?))
        }
        None => Ok(None),
    }
}

impl Row for Service {
    ghost use Rattle.do_services.specs.Core.{row, service_in};

    ghost read = { service_in };

    ghost shown = { row };

    fn read(value: &Value) -> Result<Option<Service>, AllocError> {
        let Some(items) = value.items() else {
            return Ok(None);
        };
        let [item, message, port, send, returned, user] = items.as_slice() else {
            return Ok(None);
        };
        service_of(item, message, port, send, returned, user)
    }

    fn shown(&self) -> Result<Value, AllocError> {
        let mut row = Values::with_capacity(self.item.allocator(), 6)?;
        row.push(Value::Text(self.item.clone()?))?;
        row.push(Value::Text(self.message.clone()?))?;
        row.push(Value::Num(self.port as i64))?;
        row.push(show_list::<Text>(&self.send)?)?;
        row.push(show_list::<Text>(&self.returned)?)?;
        row.push(copy_value(&self.user)?)?;
        Ok(Value::List(row))
    }
}
