//! Whether a node can carry out a plan, and how much room that takes.
//!
//! No rule names an own object that is not stored; a node looks each one up before it counts it.
ghost use Rattle.std.specs.Prelude.{◌≡◌, [], IfSome, IsTrue};
ghost use Rattle.do_machine.specs.State.{is_open};
ghost use Rattle.do_effects.specs.Sends.{CanNameAll};
ghost use Rattle.do_site.specs.Plans.{Allows, AllowsDelivery, CanSendNames};

use crate::needs::Needs;
use crate::tally::Reach;
use do_base::{NodeId, Oid, Value, Values};
use do_behave::{InvState, Invocation};
use do_class::{ClassId, Name};
use do_effects::Plan;
use do_machine::Request;
use do_part::Part;
use do_rules::Delivery;

/// The last token from which a message may count on.
const MOST_TOKENS: u64 = 4_611_686_018_427_387_904;

/// The most invocations of a node.
const MOST: usize = 256;

/// Whether names can be sent: own objects are stored, and those of third nodes are lent under the
/// next tokens, in order.
fn can_name_all(part: &Part, names: &[Name]) -> bool
    ensures { IsTrue result
        → CanNameAll part.now.own.node.heap part.now.own.node.port
        part.now.own.node.next_token names.now }
{
    let mut next = part.next_token();
    for name in names {
        match name {
            Name::Mine { serial, .. } => {
                if part.object(*serial).is_none() {
                    return false;
                }
            }
            Name::Yours { .. } => {}
            Name::Lent { oid, token, .. } => {
                if *token != next || oid.node == part.port() {
                    return false;
                }
                let Some(after) = next.checked_add(1) else {
                    return false;
                };
                next = after;
            }
        }
    }
    true
}

/// How many names are sent to a peer, if they can be.
pub(crate) fn names_sent(part: &Part, peer: NodeId, names: &[Name]) -> Option<u64>
    ensures { IfSome result (λ k. CanSendNames part.now.own.node peer names.now k) }
{
    let many = names.len() as u64;
    let tokens = part.next_token().checked_add(many)?;
    if tokens > MOST_TOKENS || !part.is_open(peer) || !can_name_all(part, names) {
        return None;
    }
    Some(many)
}

/// What a request takes.
fn of_request(part: &Part, peer: NodeId, request: &Request) -> Option<Needs>
    ensures { IfSome result (λ needs.
        Allows part.now.own.node (Plan.Asks peer request.now 0 [] 0) needs) }
{
    if part.next_call() == u64::MAX {
        return None;
    }
    let names = match request {
        Request::Root => names_sent(part, peer, &[])?,
        Request::Call { message, .. } => names_sent(part, peer, message.packet.names.as_slice())?,
    };
    Some(Needs {
        invocations: 1,
        ..Needs::to_send(names)
    })
}

/// What a delivery takes.
fn of_delivery(part: &Part, delivery: &Delivery) -> Option<Needs>
    ensures { IfSome result (λ needs. AllowsDelivery part.now.own.node delivery.now needs) }
{
    match delivery {
        Delivery::Shows { .. } => Some(Needs::to_tell(1)),
        Delivery::Answers { answer } => {
            let reach = Reach { part, more: 0 };
            Some(Needs::to_push(reach.of_answer(answer)?))
        }
        Delivery::Replies { peer, packet, .. } => {
            let names = names_sent(part, *peer, packet.names.as_slice())?;
            Some(Needs::to_send(names))
        }
        Delivery::Raises { peer, .. } => Some(Needs::to_send(names_sent(part, *peer, &[])?)),
        Delivery::Drops => Some(Needs::to_tell(0)),
    }
}

/// What an object takes that is made with these slots.
fn of_object(part: &Part, class: ClassId, slots: &Values) -> Option<Needs>
    ensures { IfSome result (λ needs.
        Allows part.now.own.node (Plan.Makes class slots.now 0 0) needs) }
{
    let reach = Reach { part, more: 0 };
    let names = reach.of_values(slots.as_slice())?.checked_add(1)?;
    Some(Needs {
        objects: 1,
        ..Needs::to_keep(names)
    })
}

/// What an invocation takes that begins over the top one.
fn of_beginning(part: &Part, invocation: &Invocation) -> Option<Needs>
    ensures { IfSome result (λ needs.
        Allows part.now.own.node (Plan.Begins invocation.now 0 [] 0) needs) }
{
    if part.depth() >= MOST || matches!(&invocation.state, InvState::Waits { .. }) {
        return None;
    }
    let reach = Reach { part, more: 0 };
    Some(Needs {
        invocations: 2,
        ..Needs::to_keep(reach.of_invocation(invocation)?)
    })
}

/// What an answer takes that is used.
fn of_use(part: &Part, value: &Value, outs: &Values) -> Option<Needs>
    ensures { IfSome result (λ needs.
        Allows part.now.own.node (Plan.Uses value.now outs.now) needs) }
{
    let reach = Reach { part, more: 0 };
    let names = reach.of_value(value)?;
    Some(Needs::to_keep(names.checked_add(reach.of_values(outs.as_slice())?)?))
}

/// What a new root takes.
fn of_root(part: &Part, root: Option<u64>) -> Option<Needs>
    ensures { IfSome result (λ needs. Allows part.now.own.node (Plan.Vends root 0) needs) }
{
    if let Some(serial) = root {
        let node = part.port();
        let reach = Reach { part, more: 0 };
        reach.of_value(&Value::Obj(Oid { node, serial }))?;
    }
    Some(Needs::to_keep(1))
}

/// How much room a plan takes. None where the node cannot carry it out, which no plan of the rules
/// is: it names an own object that is not stored, or a peer whose end is closed, or a number would
/// pass what a node can count.
pub fn allowed(part: &Part, plan: &Plan) -> Option<Needs>
    ensures { IfSome result (λ needs. Allows part.now.own.node plan.now needs) }
{
    match plan {
        Plan::Goes { value, .. } => {
            let reach = Reach { part, more: 0 };
            Some(Needs::to_keep(reach.of_value(value)?))
        }
        Plan::Uses { value, outs } => of_use(part, value, outs),
        Plan::Makes { class, slots, .. } => of_object(part, *class, slots),
        Plan::Vends { root, .. } => of_root(part, *root),
        Plan::Says { .. } => Some(Needs::to_tell(1)),
        Plan::Asks { peer, request, .. } => of_request(part, *peer, request),
        Plan::Begins { invocation, .. } => of_beginning(part, invocation),
        Plan::Tells { peer, message, .. } => {
            let names = names_sent(part, *peer, message.packet.names.as_slice())?;
            Some(Needs::to_send(names))
        }
        Plan::Delivers { delivery } => of_delivery(part, delivery),
    }
}
