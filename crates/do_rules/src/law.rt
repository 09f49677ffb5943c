//! What the judgements that are data are to what the definitions do.
ghost use Rattle.do_rules.specs.{Delivery.DeliveriesAreMade, Ruling.RulingsAreArrivals};

/// A law alone: on each node with the stack and the heap of the one that is judged by, what the
/// ruling on an item does is what the item comes to.
pub fn rulings_are_arrivals()
    ensures { RulingsAreArrivals }
{}

/// A law alone: what the delivery of an answer does, once its invocation is popped, is what becomes
/// of the answer.
pub fn deliveries_are_made()
    ensures { DeliveriesAreMade }
{}
