//! Why a network of sites goes on standing for a state of the machine.
//!
//! It stands on the definitions of a network of sites and on the facts of the machine's states. It
//! has no code of its own: each of its functions is a law, of every behaviour. It promises that a
//! network opens in agreement with the machine. Every event comes to the same in both and keeps
//! them in agreement, and a network that agrees stands for the state.
//!
//! A take is two things: the item in hand, and then an effect of that node. What the item
//! exports is received and held, and what it gives back is taken off. So the counts of a take
//! need no case of their own, but for an end. The node that has it in hand is closing its own
//! end, and what it counts for the peer is not said until it did.
//!
//! That a node accounts for what it held is said of its effect alone, and for each number of
//! times that an object was received. So one law serves every count.
//!
//! `Agrees` says more than `Fits` of do_network, and less. It says more of channels: the mark
//! of a loss stands for an end that names nothing, and no frame goes before the greeting.
//! Without that `Fits` is not kept by a send or by the take of a mark. It says nothing of
//! lends, asks and calls, which follow from the facts of the machine's states.
//!
//! That a text is another with lines `wire ..` put between its lines is said by stretches. A
//! stretch is some whole lines of the other, and then what was sent behind them. So nothing is
//! said of how a line of a transcript may begin. That no line of the machine's begins with
//! `wire ` is a law (do_plain), and so dropping the lines that do gives it byte for byte. Where
//! lines are dropped an unfinished last one stays. So the one equation with a transcript says
//! that the text has whole lines alone, and nothing of stretches has to be believed.
#![tactic(auto)]

mod laws;

pub use laws::{
    agreeing_networks_stand_for_states, classes_are_told, effects_account, events_keep_agreement,
    homes_counts_stay_right, items_in_hand_are_counted, networks_open_in_agreement,
    networks_write_what_one_machine_writes, pairs_stand_as_in_the_state,
    schedules_come_to_the_same, senders_counts_stay_right, sent_names_tell_classes,
    snapshots_are_equal, wires_fall_out,
};
