//! A server of services: an item names what a provider does with a pasteboard. Its core, and the
//! acts of its methods.
//!
//! It stands on the acts of do_native_acts. It keeps what Apple's and GNUstep's documentation of
//! `NSPerformService` and of services providers says. The pasteboard is asked for one of the types
//! that are sent, and the provider of the port performs the service. An error that it sets or
//! raises is handed back. What is promised is exact: each call, and the service of an item as the
//! calls made so far tell it. So is the act of every method, for every invocation and all slots.
#![tactic(auto)]

mod acts;
mod asking;
mod calls;
mod locals;
mod performing;
mod service;
mod services;

pub use acts::ServiceServer;
pub use calls::Call;
pub use service::{Service, is_message, is_service};
pub use services::Services;
