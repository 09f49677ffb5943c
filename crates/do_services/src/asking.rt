//! What `performService:pasteboard:error:` asks of others: the pasteboard for a type, the node of
//! the port for its root, and the provider for the service.
ghost use Rattle.std.specs.Prelude.{◌≡◌, ◌∷◌, [], IfOk};
ghost use Rattle.do_base.specs.declared.values.value.Value.TheVariants.{Nil};
ghost use Rattle.do_behave.specs.{Changes.Means, Steps.or_fault};
ghost use Rattle.do_services.specs.Acts.{asks_provider, asks_root, asks_type, provider_message};

use crate::calls::local_service;
use crate::locals::{ASIDE, BOARD, ERROR, KIND, PROVIDER, SERVICE};
use crate::service::Service;
use do_base::{Locals, Text, Value, Values, copy_value};
use do_behave::{Act, Change, Invocation};
use do_native_acts::show_list;
use std::alloc::{AllocError, Global};

/// Asks the pasteboard for one of the types that are sent.
pub(crate) fn asks_type(inv: &Invocation) -> Result<Change, AllocError>
    ensures { IfOk result (λ change. Means inv.now change (or_fault (asks_type inv.now))) }
{
    let Some(service) = local_service(inv, SERVICE)? else {
        return Ok(Change::type_fault());
    };
    let Some(target) = inv.copy_local(BOARD)? else {
        return Ok(Change::type_fault());
    };
    let alloc = inv.locals.allocator();
    let mut args = Values::with_capacity(alloc, 1)?;
    args.push(show_list::<Text>(&service.send)?)?;
    let mut from = Locals::with_capacity(alloc, 1)?;
    from.push(ASIDE)?;
    Ok(Change::Other(Act::Send {
        target,
        selector: Text::from_slice(alloc, b"availableTypeFromArray:")?,
        args,
        into: KIND,
        from,
        pc: 2,
    }))
}

/// Asks the node of the port for its root.
pub(crate) fn asks_root(inv: &Invocation) -> Result<Change, AllocError>
    ensures { IfOk result (λ change. Means inv.now change (or_fault (asks_root inv.now))) }
{
    match local_service(inv, SERVICE)? {
        Some(service) => Ok(Change::Other(Act::Root {
            port: Value::Num(service.port as i64),
            into: PROVIDER,
            pc: 4,
        })),
        None => Ok(Change::type_fault()),
    }
}

/// The message to the provider of a service.
fn provider_message(service: &Service) -> Result<Text, AllocError>
    ensures { IfOk result (λ message. message ≡ provider_message service.now) }
{
    let mut message = service.message.clone()?;
    message.push_bytes(b":userData:error:")?;
    Ok(message)
}

/// What is handed to the provider: the pasteboard, the user data, and nil for an error.
fn provider_args(service: &Service, board: Value) -> Result<Values, AllocError>
    ensures { IfOk result (λ args. args ≡ board ∷ service.now.user ∷ Nil ∷ []) }
{
    let mut args = Values::with_capacity(service.item.allocator(), 3)?;
    args.push(board)?;
    args.push(copy_value(&service.user)?)?;
    args.push(Value::Nil)?;
    Ok(args)
}

/// The locals that take what comes out of the arguments: the error goes to its own.
fn provider_outs(alloc: Global) -> Result<Locals, AllocError>
    ensures { IfOk result (λ from. from ≡ 13 ∷ 13 ∷ 2 ∷ []) }
{
    let mut from = Locals::with_capacity(alloc, 3)?;
    from.push(ASIDE)?;
    from.push(ASIDE)?;
    from.push(ERROR)?;
    Ok(from)
}

/// Asks the provider to perform the service.
pub(crate) fn asks_provider(inv: &Invocation) -> Result<Change, AllocError>
    ensures { IfOk result (λ change. Means inv.now change (or_fault (asks_provider inv.now))) }
{
    let Some(service) = local_service(inv, SERVICE)? else {
        return Ok(Change::type_fault());
    };
    let Some(target) = inv.copy_local(PROVIDER)? else {
        return Ok(Change::type_fault());
    };
    let Some(board) = inv.copy_local(BOARD)? else {
        return Ok(Change::type_fault());
    };
    Ok(Change::Other(Act::Send {
        target,
        selector: provider_message(&service)?,
        args: provider_args(&service, board)?,
        into: ASIDE,
        from: provider_outs(inv.locals.allocator())?,
        pc: 6,
    }))
}
