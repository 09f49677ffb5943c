ghost use Rattle.std.specs.Prelude.{List};
ghost use Rattle.do_base.specs.declared.events.event.Event.{Event};
ghost use Rattle.do_class.specs.Class.{Class};
ghost use Rattle.do_machine.specs.{declared.state.Seat.Seat, run.Run.Acting};
ghost use Rattle.do_facts.specs.{Made.{EnteredAreStored, NamedAreMade}, Reached.reached};

/// In every state that a machine comes to, each object that a node holds, lends or asks for was
/// made. So was each that an item on its way names.
///
/// What slots and invocations name is the behaviour's own affair, and nothing is said of it.
pub fn named_objects_were_made()
    ensures { (table : List Class) (act : Acting) (seats : List Seat) (events : List Event) →
        NamedAreMade (reached table act seats events) }
{}

/// In every state that a machine comes to, an object that a peer holds over an open end, or that is
/// on its way there or back, is stored. So a node frees nothing that is in use elsewhere.
pub fn entered_objects_are_stored()
    ensures { (table : List Class) (act : Acting) (seats : List Seat) (events : List Event) →
        EnteredAreStored (reached table act seats events) }
{}
