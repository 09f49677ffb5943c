//! What a step of a node is judged by.
mod plain;
mod turn;

use do_behave::Invocation;
use do_class::ClassTable;
use do_machine::{Node, State};
pub use turn::Turn;

/// What a step of a node is judged by: the classes, the state around the node, and the node.
///
/// The node may differ from the one that the state has at its port.
#[derive(Drop)]
pub struct Context<'a> {
    /// The classes.
    pub table: &'a ClassTable,
    /// The state around the node.
    pub state: &'a State,
    /// The node that does the step.
    pub node: &'a Node,
}

/// What a run is judged by: the invocation on top of the node's stack, and those below it.
#[derive(Drop)]
pub struct Run<'a> {
    /// What the step is judged by.
    pub context: Context<'a>,
    /// The invocation on top, which acts.
    pub top: &'a Invocation,
    /// Those below it, the next one first.
    pub below: &'a [Invocation],
}
