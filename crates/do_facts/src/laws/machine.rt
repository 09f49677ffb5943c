//! Laws of the rules themselves: of one effect, one answer, one end, and of the first version.

mod calls;
mod entries;
mod first_version;
mod nodes;
mod objects;
mod states;
mod version_1;

pub use calls::{
    answers_find_their_callers, closing_ends_all, given_up_calls_are_late, lends_last_while_asked,
};
pub use entries::{
    entries_change_by_own_steps, entries_of_others_stay, no_entry_over_a_closed_end,
};
pub use first_version::first_schedules_as_in_version_1;
pub use nodes::{held_over_open_ends, late_stays_empty, numbers_never_fall};
pub use objects::held_is_referred_to;
pub use states::{classes_stay, nodes_rise_by_port, others_stay, queues_grow_behind};
pub use version_1::as_in_version_1;
