ghost use Rattle.std.specs.Prelude.{◌≡◌, ◌<◌, ℕ, List, None, Some};
ghost use Rattle.do_base.specs.{names.Names.ObjectName, declared.events.event.Event.Event};
ghost use Rattle.do_class.specs.Class.{Class};
ghost use Rattle.do_machine.specs.declared.{node.{Node.Node, Stored.Stored}, state.Seat.Seat};
ghost use Rattle.do_machine.specs.{declared.state.State.State, State.{node, stored}, Step.step};
ghost use Rattle.do_machine.specs.{World.opening, run.{Changes.with_writes, Run.Acting}};
ghost use Rattle.do_objects.specs.{CanAct.{AllCanAct, KeepsLocals}, OwnClass.AllSound};
ghost use Rattle.do_objects.specs.{Reached.{object_of, reached}, Writes.writes_to};

/// A law alone: an object that is stored before an event and after it is the same but for what the
/// event writes to it. That is nothing, or what the running act of an invocation of it writes.
pub fn slots_are_written_by_own_acts()
    ensures { (table : List Class) (act : Acting) (S : State) (event : Event) (o : ObjectName)
        (x y : Stored) → object_of S o ≡ Some x →
        object_of (step table act S event).state o ≡ Some y →
        y ≡ with_writes (writes_to table act S event o) x }
{}

/// A law alone: where a node gave a serial and stores no object of it any more, it stores none
/// after any event.
pub fn freed_objects_never_return()
    ensures { (table : List Class) (act : Acting) (S : State) (event : Event) (port serial : ℕ)
        (n m : Node) → node S port ≡ Some n → serial < n.next_serial →
        stored serial n.heap ≡ None → node (step table act S event).state port ≡ Some m →
        stored serial m.heap ≡ None }
{}

/// A law alone: in every state that a schedule comes to, each invocation is of an object that its
/// node made. It runs a method of the class that this object has as long as it is stored.
pub fn invocations_run_own_methods()
    ensures opening { (table : List Class) (seats : List Seat) → AllSound (opening table seats) }
    ensures steps { (table : List Class) (act : Acting) (S : State) (event : Event) →
        AllSound S → AllSound (step table act S event).state }
    ensures schedules { (table : List Class) (act : Acting) (seats : List Seat)
        (events : List Event) → AllSound (reached table act seats events) }
{}

/// A law alone: in every state that a schedule comes to, each invocation runs a method that the
/// table has, and has 16 locals.
///
/// The signatures of the table are to be those of methods, as in every world. Each step of the
/// behaviour is to give 16 locals, as each of a program and of native classes does.
pub fn invocations_can_act()
    ensures opening { (table : List Class) (seats : List Seat) →
        AllCanAct table (opening table seats) }
    ensures steps { (table : List Class) (act : Acting) (S : State) (event : Event) →
        KeepsLocals table act → AllSound S → AllCanAct table S →
        AllCanAct table (step table act S event).state }
    ensures schedules { (table : List Class) (act : Acting) (seats : List Seat)
        (events : List Event) → KeepsLocals table act →
        AllCanAct table (reached table act seats events) }
{}
