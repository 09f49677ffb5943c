//! Whether a node can do what the ruling on an item says, and how much room that takes.
ghost use Rattle.std.specs.{Prelude.{◌≡◌, IfSome, ℕ}, List.list_all};
ghost use Rattle.do_effects.specs.{Plans.CanSendTo, Room.to_send, Sends.names_counted};
ghost use Rattle.do_effects.specs.Taking.{LendsNothing, ruling_copies};
ghost use Rattle.do_stack.specs.Answered.{values_taken};
ghost use Rattle.do_part.specs.Names.{sizes_of, values_of};
ghost use Rattle.do_rules.specs.Ruling.{names_in};
ghost use Rattle.do_machine.specs.declared.item.Item.{Item as Taken};
ghost use Rattle.do_site.specs.Plans.{AllowsItem, AllowsMessage, AllowsRuling, IsEnough};
ghost use Rattle.do_site.specs.{Plans.is_no_lend, Stored.Tallies};

use crate::allowing::names_sent;
use crate::needs::Needs;
use crate::tally::Reach;
use do_base::NodeId;
use do_behave::{Answer, Invocation};
use do_class::Name;
use do_machine::{Item, Wanted};
use do_packet::Made;
use do_part::Part;
use do_rules::{Answered, Ruling};

/// The last token from which a message may count on.
const MOST_TOKENS: u64 = 4_611_686_018_427_387_904;

/// The most invocations of a node.
const MOST: usize = 256;

/// The names in the message of an item.
pub fn names_in(item: &Item) -> &[Name]
    ensures { result.now ≡ names_in item.now }
{
    match item {
        Item::Call { message, .. } => message.packet.names.as_slice(),
        Item::Oneway { message } => message.packet.names.as_slice(),
        Item::Reply { packet, .. } => packet.names.as_slice(),
        Item::RootAnswer { packet, .. } => packet.names.as_slice(),
        _ => &[],
    }
}

/// The objects that come with a ruling. None where nothing comes.
pub(crate) fn copies_in(ruling: &Ruling) -> &[Made]
    ensures { result.now ≡ ruling_copies ruling.now }
{
    match ruling {
        Ruling::Begins { copies, .. } => copies.as_slice(),
        Ruling::Refuses { copies, .. } => copies.as_slice(),
        Ruling::Answers { copies, .. } => copies.as_slice(),
        _ => &[],
    }
}

/// Whether no name lends an object of a third node.
fn lends_nothing(names: &[Name]) -> bool
    ensures { result ≡ list_all is_no_lend names.now }
{
    names.iter().all(|name| !matches!(name, Name::Lent { .. }))
}

/// What an item takes that goes back to the peer whose item it answers. It lends nothing.
fn of_reply(part: &Part, from: NodeId, item: &Item) -> Option<Needs>
    ensures { IfSome result (λ needs. CanSendTo part.now.own.node from item.now
        × (LendsNothing from item.now × IsEnough (to_send item.now) needs)) }
{
    if !lends_nothing(names_in(item)) {
        return None;
    }
    Some(Needs::to_send(names_counted(part, from, item)?))
}

/// How many names an item counts that is sent to a peer, if it can be sent.
fn names_counted(part: &Part, peer: NodeId, item: &Item) -> Option<u64>
    ensures { IfSome result (λ k. CanSendTo part.now.own.node peer item.now
        × (k ≡ names_counted item.now)) }
{
    match item {
        Item::Granted { serial, .. } => {
            let known = part.object(*serial).is_some() && part.is_open(peer);
            if !known || part.next_token() >= MOST_TOKENS {
                return None;
            }
            Some(1)
        }
        _ => names_sent(part, peer, names_in(item)),
    }
}

/// What the values of an answer take, if there is one.
fn of_answer(reach: Reach<'_>, answer: &Option<Answer>) -> Option<u64>
    ensures { IfSome result (λ k. Tallies reach.entry.part.now.own.node reach.entry.more
        (values_of (values_taken answer.now)) (sizes_of (values_taken answer.now)) k) }
{
    match answer {
        Some(answer) => reach.of_answer(answer),
        None => Some(0),
    }
}

/// What a message takes with so many names and these copies, and so many names that the node comes
/// to keep besides.
fn of_message(part: &Part, many: u64, copies: &[Made], kept: u64) -> Option<Needs>
    ensures { IfSome result (λ needs.
        AllowsMessage part.now.own.node many copies.now kept needs) }
{
    let more = copies.len() as u64;
    let slots = (Reach { part, more }).of_copies(copies)?;
    let names = many.checked_add(slots)?.checked_add(kept)?;
    let waiting = many.checked_add(1)?;
    Some(Needs {
        objects: more,
        invocations: 1,
        names,
        entries: many,
        waiting,
    })
}

/// What an invocation takes that begins by a message of so many names with these copies.
fn of_beginning(part: &Part, many: u64, copies: &[Made], invocation: &Invocation) -> Option<Needs>
    ensures { IfSome result (λ needs. (from : ℕ) (item : Taken) → AllowsItem part.now.own.node
        from item many (Ruling.Begins copies.now invocation.now) needs) }
{
    if part.depth() >= MOST {
        return None;
    }
    let more = copies.len() as u64;
    let kept = (Reach { part, more }).of_invocation(invocation)?;
    of_message(part, many, copies, kept)
}

/// What an answer takes that comes in a message of so many names with these copies.
fn of_answering(
    part: &Part,
    many: u64,
    copies: &[Made],
    call: Answered,
    answer: &Option<Answer>,
) -> Option<Needs>
    ensures { IfSome result (λ needs. (from : ℕ) (item : Taken) → AllowsItem part.now.own.node
        from item many (Ruling.Answers copies.now call answer.now) needs) }
{
    let more = copies.len() as u64;
    let kept = of_answer(Reach { part, more }, answer)?;
    of_message(part, many, copies, kept)
}

/// What the end of an ask takes, which is kept.
fn of_ask(part: &Part, wanted: &Wanted) -> Option<Needs>
    ensures { IfSome result (λ needs. (from many : ℕ) (item : Taken) →
        AllowsItem part.now.own.node from item many (Ruling.EndsAsk wanted.now) needs) }
{
    if !part.is_asked(wanted.object, wanted.token) {
        return None;
    }
    Some(Needs {
        entries: 1,
        waiting: 1,
        ..Needs::to_keep(1)
    })
}

/// What it takes to do what a ruling says on an item with so many names.
fn of_ruling(part: &Part, from: NodeId, item: &Item, many: u64, ruling: &Ruling) -> Option<Needs>
    ensures { IfSome result (λ needs.
        AllowsItem part.now.own.node from item.now many ruling.now needs) }
{
    match ruling {
        Ruling::Begins { copies, invocation } => {
            of_beginning(part, many, copies.as_slice(), invocation)
        }
        Ruling::Refuses { copies, .. } => of_message(part, many, copies.as_slice(), 0),
        Ruling::Answers {
            copies,
            call,
            answer,
        } => of_answering(part, many, copies.as_slice(), *call, answer),
        Ruling::Replies { item } => of_reply(part, from, item),
        Ruling::EndsAsk { wanted } => of_ask(part, wanted),
        Ruling::Closes => Some(Needs::to_tell(part.asks().checked_add(1)?)),
        Ruling::Raises { .. } | Ruling::EndsLend { .. } | Ruling::Stays => Some(Needs::to_tell(0)),
    }
}

/// How much room it takes to do what the ruling on an item says, and to show the item. None where
/// the node cannot do it, which is so of no ruling of the rules on a frame that its peer may send.
pub(crate) fn ruling_allowed(
    part: &Part,
    from: NodeId,
    item: &Item,
    ruling: &Ruling,
) -> Option<Needs>
    ensures { IfSome result (λ needs.
        AllowsRuling part.now.own.node from item.now ruling.now needs) }
{
    let many = names_in(item).len() as u64;
    let needs = of_ruling(part, from, item, many, ruling)?;
    Some(Needs {
        waiting: needs.waiting.checked_add(1)?,
        ..needs
    })
}
