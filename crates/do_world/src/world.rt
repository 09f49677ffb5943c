use do_behave::Program;
use do_class::ClassTable;
use do_class_kinds::{Kinds, RuleTable};
use do_machine::Seats;

/// A world: its classes, what decides the acts of each, and its nodes in any order.
///
/// Each class has a kind and a list of rules at its place, and each method a code; the codes of
/// native classes are empty.
#[derive(Debug, Drop)]
pub struct World {
    /// The classes with their slots and methods.
    pub table: ClassTable,
    /// The kind of each class.
    pub kinds: Kinds,
    /// The rules of each class; only checkers have some.
    pub rules: RuleTable,
    /// The code of each method.
    pub program: Program,
    /// The port of each node, and the class of its root.
    pub nodes: Seats,
}
