ghost use Rattle.std.specs.Prelude.{List};
ghost use Rattle.do_base.specs.declared.events.event.Event.{Event};
ghost use Rattle.do_class.specs.Class.{Class};
ghost use Rattle.do_machine.specs.{declared.state.{Seat.Seat, State.State}, Step.step};
ghost use Rattle.do_machine.specs.World.{opening};
ghost use Rattle.do_facts.specs.laws.Follows.{AllHoldOpen, EachNode, Follows, Grows, IsNoTimeOut};
ghost use Rattle.do_machine.specs.run.Run.{Acting};

/// No event makes a node's next serial, call or token number lower, opens an end that was closed or
/// gives a node another port, and no node comes or goes.
pub fn numbers_never_fall()
    ensures { (table : List Class) (act : Acting) (S : State) (event : Event) →
        EachNode Grows S (step table act S event).state }
{}

/// Without a time-out no call becomes late.
pub fn late_stays_empty()
    ensures { (table : List Class) (act : Acting) (S : State) (event : Event) →
        IsNoTimeOut event → EachNode Follows S (step table act S event).state }
{}

/// A node holds an object of a peer only while its end towards the peer is open.
pub fn held_over_open_ends()
    ensures opening { (table : List Class) (seats : List Seat) → AllHoldOpen (opening table seats) }
    ensures steps { (table : List Class) (act : Acting) (S : State) (event : Event) →
        AllHoldOpen S → AllHoldOpen (step table act S event).state }
{}
