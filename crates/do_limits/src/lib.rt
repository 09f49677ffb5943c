//! What a machine's states hold and send stays within what messages can carry.
//!
//! It stands on the definitions of the machine, of messages and of their spellings. It has no code
//! of its own: each of its functions is a law, of every behaviour that keeps the limits. It
//! promises that in every state that a machine comes to each value can be carried by a message.
//! With each event the numbers of calls, objects and lends rise by no more than a bound. While they
//! are small the frame of each item on its way has a spelling.
//!
//! What a value must keep to be carried is said of the value as a packet spells it (a number of
//! 64 bits, a text of bytes). A law ranges over every number, where the program's types do not.
//!
//! The weight of a value is not kept either: no spelling depends on it. The length of a payload
//! does, and a packet keeps its weight where it is packed.
//!
//! That a message keeps the limits of do_packet, and that its places are there, is kept from
//! state to state by what do_packet shows of each packing. A root is sent without packing's
//! tests; it is what packing gives, since its place is not bycopy and it weighs 48 at most.
//!
//! Of numbers only what stays is kept from state to state by its own laws. They are from 1 on,
//! classes are of the table, and what is lent lives at neither end. That serials, tokens and
//! the numbers of calls were given, and so are small while few events came, is said of each
//! state that is reached. do_facts says it of serials, and moves in its form of tokens and
//! calls.
//!
//! The amount of a release is no part of the machine, whose items say 'left' of one object.
//! What a site counts is told by the counts of do_agreement, so a release is said to have a
//! spelling for each amount that has one.
//!
//! That scripts keep the limits is walked here, instruction by instruction, and not taken from
//! do_behave's law, which asks of every number that it be kept. A law ranges over every
//! integer, and a number is carried only if it has 64 bits. Native acts are left as a premise.
#![tactic(auto)]

mod laws;

pub use laws::{
    items_have_spellings, numbers_of_states_are_bounded, scripts_keep_values_sendable,
    starts_of_schedules_can_be_sent, values_of_states_can_be_sent,
};
