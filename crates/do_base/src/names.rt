//! The names of nodes, objects, calls and loans.
pub mod node;
