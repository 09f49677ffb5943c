ghost use Rattle.std.specs.Prelude.{◌≡◌, ◌==◌, ◌++◌, ℕ, List, Some, false};
ghost use Rattle.std.specs.List.Sorted.{IsStrictlyIncreasing};
ghost use Rattle.do_base.specs.{names.Names.ObjectName, declared.events.event.Event.Event};
ghost use Rattle.do_class.specs.{Class.Class, declared.ids.ClassId.ClassId};
ghost use Rattle.do_machine.specs.declared.{item.Item.Item, state.{Effect.Effect, Seat.Seat}};
ghost use Rattle.do_machine.specs.declared.state.State.{State};
ghost use Rattle.do_machine.specs.{State.{class_of, node, ports, queue}, Commit.{commit, items_to}};
ghost use Rattle.do_machine.specs.{Step.step, World.{IsWorld, opening}, run.Run.Acting};

/// The class of an object stays known and the same, whatever a node does.
pub fn classes_stay()
    ensures { (port : ℕ) (e : Effect) (S : State) (o : ObjectName) (class : ClassId) →
        class_of S o ≡ Some class → class_of (commit port e S) o ≡ Some class }
{}

/// What a node does changes no other node, and no queue from another.
pub fn others_stay()
    ensures nodes { (port other : ℕ) (e : Effect) (S : State) → (other == port) ≡ false →
        node (commit port e S) other ≡ node S other }
    ensures queues { (port from to : ℕ) (e : Effect) (S : State) → (from == port) ≡ false →
        queue (commit port e S) from to ≡ queue S from to }
{}

/// What a node sends stands behind what it sent before, in order.
pub fn queues_grow_behind()
    ensures { (port to : ℕ) (e : Effect) (S : State) (waiting : List Item) →
        queue S port to ≡ Some waiting →
        queue (commit port e S) port to ≡ Some (waiting ++ items_to to e.sent) }
{}

/// The nodes stand by rising port, in whatever order the world lists them, and no event moves them.
pub fn nodes_rise_by_port()
    ensures opening { (table : List Class) (seats : List Seat) → IsWorld table seats →
        IsStrictlyIncreasing (ports (opening table seats)) }
    ensures steps { (table : List Class) (act : Acting) (S : State) (event : Event) →
        ports (step table act S event).state ≡ ports S }
{}
