//! Laws of the agreement, each carried by a function that does nothing else.
mod agreement;
mod classes;
mod counts;
mod pairs;

pub use agreement::{
    agreeing_networks_stand_for_states, events_keep_agreement, networks_open_in_agreement,
    networks_write_what_one_machine_writes, schedules_come_to_the_same, snapshots_are_equal,
    wires_fall_out,
};
pub use classes::{classes_are_told, sent_names_tell_classes};
pub use counts::{
    effects_account, homes_counts_stay_right, items_in_hand_are_counted, senders_counts_stay_right,
};
pub use pairs::pairs_stand_as_in_the_state;
