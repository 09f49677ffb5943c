//! What a network of sites names beside the slots of its objects, as its frames' bytes tell it.
//!
//! It stands on do_network's networks, on do_lost, which says what a state of the machine names,
//! and on do_agreement. It has no code of its own: each of its functions is a law, of every
//! behaviour. It promises that a network which stands for a state names what the state names, so
//! that a search for what nothing can reach finds the same in both. The form is this project's own.
//!
//! What is under way is read from its bytes, and nothing is noted when it is sent. A lane's
//! frames are read by the names that its reader read last. These are right also where the
//! reader's end has closed, since nothing is read over a closed end (do_agreement says so of
//! each channel).
//!
//! A frame that cannot be read ends the reading of its lane, as what stands behind it is never
//! taken. In a network that stands for a state of the machine there is none.
//!
//! The bytes of an end name no object. What the machine's end names are objects of the receiver
//! that the sender held, and the receiver counts them until it takes the end. So they are the
//! entries of peers whose ends are closed, which a check lists.
#![tactic(auto)]

mod laws;

pub use laws::{networks_name_what_states_name, searches_find_the_same};
