//! Acts of native classes keep values within what a message can carry.
//!
//! It stands on the definitions of the acts of each kind of class and on the limits of messages. It
//! has no code of its own: each of its functions is a law, of every table, invocation and slots. It
//! promises it of checkers and of servers of each kind, and so of a world's whole behaviour.
//!
//! What native acts store is tested for its size, so only its atoms are followed. A native act
//! tests each value that it sets or writes against the limits on texts, items and nesting. So a
//! law that such values can be carried has to follow numbers and bytes alone. It follows them
//! from the slots and arguments that a core is read from, through the call, to what it leaves
//! and answers.
#![tactic(auto)]

mod laws;

pub use laws::{
    centers_keep_values_sendable, checkers_keep_values_sendable, native_acts_keep_values_sendable,
    pasteboards_keep_values_sendable, servers_of_names_keep_values_sendable,
    servers_of_services_keep_values_sendable, worlds_keep_values_sendable,
};
