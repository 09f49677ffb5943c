//! A checker: an object that passes on to its target the messages that its rules allow, and raises
//! an exception for those that they deny.
//!
//! It stands on the acts of do_native_acts. It follows GNUstep's and Apple's documentation of
//! `NSProtocolChecker`, with one rule for each selector in place of a protocol. A message is
//! forwarded with the arguments and the result as they are, or raises the text of its rule. What is
//! promised is exact: the act of every method, for every invocation and all slots; laws say what is
//! never sent, and that a target stays.
#![tactic(auto)]

mod acts;
mod forward;
mod guard;
mod law;
mod lookup;
mod rules;

pub use acts::{Checker, check_act};
pub use law::{denial_raises, only_allowed_is_sent, target_stays};
pub use lookup::verdict;
pub use rules::{Rule, Rules, Verdict};
