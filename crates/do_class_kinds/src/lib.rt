//! The kinds of classes: classes of scripts, four native classes with slots and methods of their
//! own, and checkers.
//!
//! It stands on the class table, on the reader of signatures and on the rules of checkers. It
//! promises that the slots and the methods of each kind are those that its definition lists, and
//! that a class may have them.
#![tactic(auto)]

mod kind;
mod methods;
mod slots;

pub use kind::{Kind, Kinds, RuleTable, kind_named};
pub use methods::native_methods;
pub use slots::native_slots;
