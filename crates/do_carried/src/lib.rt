//! What the types of numbers and texts say of the code and the rules of a world.
//!
//! It stands on the code of methods and on the rules of checkers. Each number of such code has 64
//! bits, and each text of code and rules is of bytes. Nothing is tested, and nothing can fail: the
//! calls walk what a world has once, so that laws of limits can be cited of it.
#![tactic(auto)]

mod code;
mod ranges;
mod rules;

pub use code::codes_are_ranged;
pub use rules::rules_are_ranged;
