//! Packets as bytes: each has one spelling, by a table of the objects that the sender named lately.
//!
//! The crate stands on the packets of do_class and on the numbers and texts of do_grammar. It
//! promises that what `encode` writes is what `decode` reads, whatever follows, and that both leave
//! equal tables equal. `decode` tells the first byte with which no packet goes on.
//!
//! The form is this project's own. A packet is three lists, of names, copies and values, each
//! behind its length:
//!
//! | Part | Bytes |
//! |---|---|
//! | an object of the sender that the table does not have | 1, serial, class |
//! | one that it has | 4, its place from 0 at the oldest |
//! | an object of the receiver | 2, serial |
//! | an object that is lent | 3, port, serial, class, token |
//! | a copy | class, number of slots, the slots' values |
//! | nil; a number; a text | 0; 1, signed number; 2, length, bytes |
//! | a copy, a name, by its place | 3, place; 4, place |
//! | a list | 5, length, the values |
//!
//! There are at most 65,536 names, 4,096 copies and 9 values, 1,024 values in a list, 8 lists in
//! one another, and 1,048,575 bytes in a text. Serials and tokens are from 1 to 2^63 - 1. A lent
//! object's port is neither the sender's nor the receiver's.
#![tactic(auto)]

mod read;
mod recent;
mod tags;
mod write;

pub use read::front::decode;
pub use read::packet::packet_of;
pub use recent::name_log::NameLog;
pub use recent::pair::Pair;
pub use recent::table::Recent;
pub use write::{encode, push_packet};
