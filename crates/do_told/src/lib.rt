//! The calls that were made of a link, and the children that a spawner started, of which only
//! proofs know.
//!
//! It stands on the words in which links and spawners tell what they did. It promises that a
//! history grows by what is told, and by nothing else. A history takes no memory, and its functions
//! do nothing where they run. The form is this project's own.
#![tactic(auto)]

mod calls;
mod children;

pub use calls::{Call, Calls};
pub use children::{Child, Children};
