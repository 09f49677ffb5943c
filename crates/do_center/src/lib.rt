//! A notification centre: observers with registrations, posts, and what waits for observers that
//! are suspended. Its core, and the acts of its methods.
//!
//! It stands on the acts of do_native_acts. It keeps what Apple's documentation of
//! `NSDistributedNotificationCenter` says of the four suspension behaviours and of coalescing. What
//! is promised is exact: each call, its deliveries and their order, and the act of every method,
//! for every invocation and all slots. The slots and the limits are this project's own.
#![tactic(auto)]

mod acts;
mod calls;
mod center;
mod delivering;
mod key;
mod labels;
mod limits;
mod methods;
mod notes;
mod observers;
mod posting;
mod queues;
mod registrations;
mod removing;
mod seats;
mod slots;
mod suspended;
mod suspension;

pub use acts::NotificationCenter;
pub use calls::Call;
pub use center::Center;
pub use notes::{Deliveries, Delivery, Note, is_note};
pub use registrations::{Registration, is_registration};
pub use suspension::Suspension;
