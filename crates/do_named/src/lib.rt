//! The objects that a node of a network names beside the slots of its objects.
//!
//! It stands on do_part, which a site keeps of its node, and on do_lost for what an invocation
//! names. It promises exactly the objects that the definitions start from when they look for what
//! nothing can reach. The form is this project's own.
#![tactic(auto)]

mod naming;

pub use naming::named;
