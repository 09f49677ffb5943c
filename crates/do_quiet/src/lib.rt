//! What holds while all ends are open, and what is left once nothing is on its way between nodes.
//!
//! It stands on the definitions of the machine and the facts of its states. It has no code of its
//! own: each of its functions is a law, of every behaviour. It promises that while all ends are
//! open a node keeps what it lends. Once nothing is on its way nothing is lent and nothing asked
//! for, and what is stored is held up by roots, invocations and slots alone.
//!
//! Quiet is a property of the state. The laws of quiet states take as premises that all ends
//! are open and all queues empty, and not that nothing was closed or lost on the way. That the
//! second gives the first is a law of its own.
#![tactic(auto)]

mod laws;

pub use laws::{
    asks_are_granted, ends_stay_open_unless_broken, lends_last_while_ends_are_open,
    lent_objects_are_kept, nodes_keep_what_is_held_up, nothing_is_lent_when_quiet,
    stored_are_kept_by_all,
};
