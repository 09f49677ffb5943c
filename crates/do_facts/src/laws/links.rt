ghost use Rattle.std.specs.Prelude.{List, Some, ℕ, ◌≡◌};
ghost use Rattle.do_base.specs.declared.events.event.Event.{Event};
ghost use Rattle.do_class.specs.Class.{Class};
ghost use Rattle.do_machine.specs.declared.{node.{Lend.Lend, Node.Node}, state.Seat.Seat};
ghost use Rattle.do_machine.specs.{declared.state.State.State, Lists.IsIn, State.node, Step.step};
ghost use Rattle.do_machine.specs.{World.opening, run.Run.Acting};
ghost use Rattle.do_facts.specs.{ByEvents.IsBy, Moves.Reaches, Reached.reached, View.net_of};
ghost use Rattle.do_facts.specs.links.{Facts.ReportsAreKnown, Lasting.Lasts, Links.links};
ghost use Rattle.do_facts.specs.links.{LinksAreKept.LinksAreKept, Moves.link_rules};

/// Every step is a list of moves of what the event's node has of foreign objects. A loss is one
/// loss, in the queue that it names, and a check is nothing.
///
/// Each move takes one atom at most, and posts one at most, over an open end.
pub fn steps_are_moves()
    ensures { (table : List Class) (act : Acting) (S : State) (event : Event) → LinksAreKept S →
        Reaches link_rules (IsBy event) (net_of links S)
        (net_of links (step table act S event).state) }
{}

/// In every state that a machine comes to, each lend and each ask is in one place, and a token that
/// was not given is nowhere.
///
/// So what comes over an open end is known. A lend that is over is lent, an answer to an ask is
/// asked for, each once, and what is lent anew was not asked for.
pub fn lends_and_asks_are_in_one_place()
    ensures opening { (table : List Class) (seats : List Seat) →
        LinksAreKept (opening table seats) }
    ensures steps { (table : List Class) (act : Acting) (S : State) (event : Event) →
        LinksAreKept S → LinksAreKept (step table act S event).state }
    ensures schedules { (table : List Class) (act : Acting) (seats : List Seat)
        (events : List Event) → LinksAreKept (reached table act seats events) }
    ensures reports { (table : List Class) (act : Acting) (seats : List Seat)
        (events : List Event) →
        ReportsAreKnown (net_of links (reached table act seats events)) }
{}

/// Where each lend is in one place, a lend lasts until its node takes the borrower's notice that it
/// is over, or closes the end towards it.
///
/// It is in all that a machine comes to.
pub fn lends_last_until_settled()
    ensures { (table : List Class) (act : Acting) (S : State) (event : Event) (port : ℕ)
        (n m : Node) (l : Lend) → LinksAreKept S → node S port ≡ Some n →
        node (step table act S event).state port ≡ Some m → IsIn n.lent l →
        Lasts S event port n m l }
{}
