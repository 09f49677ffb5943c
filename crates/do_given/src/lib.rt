//! What the words of a command give, and what a run of the program came to.
//!
//! It stands on the readers of worlds, schedules, starts and plans, and on the shelf as a trait. It
//! promises for each what is read where the shelf tells its files, why nothing is given, and that
//! each status has a number of its own.
//!
//! What the words of a command give is read in a crate of its own, below the commands, since
//! replaying, serving and running a plan read alike. A status is declared there, too, with all
//! its cases; each command says which of them it answers.
#![tactic(auto)]

mod fetching;
mod forms;
mod parts;
mod scheduled;
mod schedules;
mod seated;
mod served;
mod status;
mod worlds;

pub use fetching::fetch_within;
pub use forms::plan_given;
pub use parts::{Parts, parts_of};
pub use scheduled::{Scheduled, scheduled_given};
pub use schedules::upgrade_given;
pub use seated::Seated;
pub use served::{Served, served_given};
pub use status::Status;
pub use worlds::world_given;
