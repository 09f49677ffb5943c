//! Within how many events each frame of a network has a spelling.
//!
//! It stands on the agreement of a network with the machine and on the limits of what a machine's
//! states hold and send. It has no code of its own: each of its functions is a law, of every world
//! and of every behaviour that keeps values within the limits. It promises that over each schedule
//! of fewer than 2^46 events each frame that is sent can be read by its peer. So such a schedule
//! comes to the same in a network of sites and in one machine.
#![tactic(auto)]

mod laws;

pub use laws::{
    amounts_are_bounded, frames_have_spellings, frames_of_schedules_have_spellings,
    networks_are_one_machine, numbers_of_networks_are_bounded, scripted_networks_are_one_machine,
};
