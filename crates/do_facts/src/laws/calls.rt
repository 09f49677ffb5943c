ghost use Rattle.std.specs.Prelude.{List};
ghost use Rattle.do_base.specs.declared.events.event.Event.{Event};
ghost use Rattle.do_class.specs.Class.{Class};
ghost use Rattle.do_machine.specs.{declared.state.{Seat.Seat, State.State}, Step.step};
ghost use Rattle.do_machine.specs.{World.opening, run.Run.Acting};
ghost use Rattle.do_facts.specs.{ByEvents.IsBy, Moves.Reaches, Reached.reached, View.net_of};
ghost use Rattle.do_facts.specs.calls.{Calls.calls, Facts.{AnswersAreKnown, CallsAreKept}};
ghost use Rattle.do_facts.specs.calls.Moves.{call_rules};

/// Every step is a list of moves of the calls of the event's node; a loss is one loss, in the queue
/// that it names, and a check is nothing.
///
/// Each move takes one atom at most, and posts one at most, over an open end.
pub fn steps_are_moves_of_calls()
    ensures { (table : List Class) (act : Acting) (S : State) (event : Event) → CallsAreKept S →
        Reaches call_rules (IsBy event) (net_of calls S)
        (net_of calls (step table act S event).state) }
{}

/// In every state that a machine comes to, each call is in one place.
///
/// So each answer on its way to an open end is waited for, or late, by exactly one, of its kind.
pub fn calls_are_in_one_place()
    ensures opening { (table : List Class) (seats : List Seat) →
        CallsAreKept (opening table seats) }
    ensures steps { (table : List Class) (act : Acting) (S : State) (event : Event) →
        CallsAreKept S → CallsAreKept (step table act S event).state }
    ensures schedules { (table : List Class) (act : Acting) (seats : List Seat)
        (events : List Event) → CallsAreKept (reached table act seats events) }
    ensures answers { (table : List Class) (act : Acting) (seats : List Seat)
        (events : List Event) →
        AnswersAreKnown (net_of calls (reached table act seats events)) }
{}
