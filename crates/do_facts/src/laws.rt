//! The laws, by what they are about.

mod calls;
mod links;
mod machine;
mod names;
mod steps;

pub use calls::{calls_are_in_one_place, steps_are_moves_of_calls};
pub use links::{lends_and_asks_are_in_one_place, lends_last_until_settled, steps_are_moves};
pub use machine::{
    answers_find_their_callers, as_in_version_1, classes_stay, closing_ends_all,
    entries_change_by_own_steps, entries_of_others_stay, first_schedules_as_in_version_1,
    given_up_calls_are_late, held_is_referred_to, held_over_open_ends, late_stays_empty,
    lends_last_while_asked, no_entry_over_a_closed_end, nodes_rise_by_port, numbers_never_fall,
    others_stay, queues_grow_behind,
};
pub use names::{entered_objects_are_stored, named_objects_were_made};
pub use steps::{
    entries_change_at_both_ends, held_objects_are_referred_to, queues_change_at_their_ends,
    steps_are_of_one_node, time_outs_give_calls_up,
};
