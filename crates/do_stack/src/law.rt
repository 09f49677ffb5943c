//! What the counts of uses are to what a node refers to.
ghost use Rattle.do_stack.specs.Uses.{CountsReferences, CountsOnce, CountsNode, CountsHolders};

/// A law alone: an object is used above 0 times exactly where an invocation names it, as its own
/// object, in a local or in its answer.
pub fn uses_are_references()
    ensures { CountsReferences }
{}

/// A law alone: who counts each object of `objects_named` once counts the uses of the value.
pub fn named_objects_are_uses()
    ensures { CountsOnce }
{}

/// A law alone: a foreign object is used above 0 times exactly where the node refers to it, in a
/// slot, an invocation, a lend or an ask. So it may leave just where nothing of these is counted.
pub fn counts_are_references()
    ensures { CountsNode }
{}

/// A law alone: an own object has a holder or a name in a slot exactly where it stays: it is the
/// root, an invocation or a slot names it, or a peer has an entry of it.
pub fn holders_are_references()
    ensures { CountsHolders }
{}
