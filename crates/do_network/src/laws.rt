//! Laws of sites and networks, each carried by a function that does nothing else.
mod counts;
mod fits;
mod sites;
mod streams;

pub use counts::{
    closed_ends_count_nothing, first_classes_stay, names_back_are_taken_off,
    sent_names_are_counted, unknown_objects_have_no_class,
};
pub use fits::{
    fitting_frames_are_taken, fitting_frames_have_no_fault, fitting_sites_judge_alike, opening_fits,
};
pub use sites::{enabled_is_not_skipped, judged_alike, other_sites_stay, skipped_changes_nothing};
pub use streams::{losses_keep_what_is_before, streams_begin_with_the_greeting};
