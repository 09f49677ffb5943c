ghost use Rattle.std.specs.Prelude.{false, true, List, None, Some, ℕ, ◌==◌, ◌≡◌};
ghost use Rattle.do_base.specs.declared.events.event.Event.{Event};
ghost use Rattle.do_base.specs.declared.events.event.Event.TheVariants.{Lose, Take, Timeout};
ghost use Rattle.do_base.specs.names.Names.{CallName, ObjectName};
ghost use Rattle.do_behave.specs.declared.invocation.{Invocation.Invocation, Waited.Waited};
ghost use Rattle.do_class.specs.{Class.Class, declared.ids.ClassId.ClassId};
ghost use Rattle.do_machine.specs.declared.{item.Item.Item, node.Node.Node, state.Effect.Effect};
ghost use Rattle.do_machine.specs.{declared.state.{Seat.Seat, State.State}, Commit.moved};
ghost use Rattle.do_machine.specs.{Entry.has_entry, State.{class_of, node, queue}, Step.step};
ghost use Rattle.do_machine.specs.World.{opening};
ghost use Rattle.do_facts.specs.laws.Entries.{IsNoStepOf};
ghost use Rattle.do_machine.specs.run.Run.{Acting};
ghost use Rattle.do_facts.specs.Reached.{reached};
ghost use Rattle.do_facts.specs.steps.GivenUp.{CanGiveUp, HasGivenUp, WaitsOnTop};
ghost use Rattle.do_facts.specs.steps.{Held.AllReferToHeld, IsStep.{IsActOf, IsRuleOf, IsStep}};
ghost use Rattle.do_facts.specs.steps.Queues.{IsLost, IsTaken, StandBehind, touches};

/// A step is two effects of one node, that of the event's rule and what the node frees and leaves
/// then. Before them the node takes one item out of one queue at most. Or a step is a loss, which
/// puts one end into one queue. Where a rule gives its node an effect, the event is not skipped.
///
/// So it changes no node but its own, and the class of an object that was made stays known and the
/// same.
pub fn steps_are_of_one_node()
    ensures form { (table : List Class) (act : Acting) (S : State) (event : Event) →
        IsStep table act S event (step table act S event) }
    ensures acts { (table : List Class) (act : Acting) (S : State) (event : Event) (port : ℕ)
        (n : Node) (e : Effect) → IsActOf port event → node S port ≡ Some n →
        IsRuleOf table act S event n e → step table act S event ≡ moved port S e }
    ensures others { (table : List Class) (act : Acting) (S : State) (event : Event) (other : ℕ) →
        IsNoStepOf other event →
        node (step table act S event).state other ≡ node S other }
    ensures classes { (table : List Class) (act : Acting) (S : State) (event : Event)
        (o : ObjectName) (class : ClassId) → class_of S o ≡ Some class →
        class_of (step table act S event).state o ≡ Some class }
{}

/// A step changes a queue at its ends alone: its node sends behind what waits, and takes what waits
/// first.
///
/// A loss puts an end that names nothing among the items of one queue, wherever it may be; it is
/// the one exception. A queue from another node stays as it is, where the step takes and loses
/// nothing in it. No queue comes or goes.
pub fn queues_change_at_their_ends()
    ensures others { (table : List Class) (act : Acting) (S : State) (event : Event)
        (from to : ℕ) → IsNoStepOf from event → touches event from to ≡ false →
        queue (step table act S event).state from to ≡ queue S from to }
    ensures behind { (table : List Class) (act : Acting) (S : State) (event : Event)
        (from to : ℕ) (waiting : List Item) → touches event from to ≡ false →
        queue S from to ≡ Some waiting →
        StandBehind (step table act S event).state from to waiting }
    ensures absent { (table : List Class) (act : Acting) (S : State) (event : Event)
        (from to : ℕ) → queue S from to ≡ None →
        queue (step table act S event).state from to ≡ None }
    ensures takes { (table : List Class) (act : Acting) (S : State) (port from : ℕ) →
        (step table act S (Take port from)).outcome.enabled ≡ true → (from == port) ≡ false →
        IsTaken S (step table act S (Take port from)).state from port }
    ensures loses { (table : List Class) (act : Acting) (S : State) (from to after : ℕ) →
        (step table act S (Lose from to after)).outcome.enabled ≡ true →
        IsLost S (step table act S (Lose from to after)).state from to after }
{}

/// Whether a peer has an entry of a node's object is changed by steps of these two alone, and by no
/// loss.
pub fn entries_change_at_both_ends()
    ensures { (table : List Class) (act : Acting) (S : State) (event : Event) (peer : ℕ)
        (o : ObjectName) → IsNoStepOf o.node event → IsNoStepOf peer event →
        has_entry (step table act S event).state peer o ≡ has_entry S peer o }
{}

/// In every state that a machine comes to, each node names each object that it holds in a slot, an
/// invocation, a lend or an ask.
pub fn held_objects_are_referred_to()
    ensures opening { (table : List Class) (seats : List Seat) →
        AllReferToHeld (opening table seats) }
    ensures steps { (table : List Class) (act : Acting) (S : State) (event : Event) →
        AllReferToHeld S → AllReferToHeld (step table act S event).state }
    ensures schedules { (table : List Class) (act : Acting) (seats : List Seat)
        (events : List Event) → AllReferToHeld (reached table act seats events) }
{}

/// A time-out is enabled exactly where the top invocation of its node waits for a call. It answers
/// the invocation by an exception, and the call is late from then on.
pub fn time_outs_give_calls_up()
    ensures waiting { (table : List Class) (act : Acting) (S : State) (port : ℕ) (n : Node)
        (i : Invocation) (below : List Invocation) (call : CallName) (peer : ℕ) (what : Waited) →
        node S port ≡ Some n → WaitsOnTop n i below call peer what →
        (step table act S (Timeout port)).outcome.enabled ≡ true }
    ensures given_up { (table : List Class) (act : Acting) (S : State) (port : ℕ) (n : Node)
        (i : Invocation) (below : List Invocation) (call : CallName) (peer : ℕ) (what : Waited) →
        node S port ≡ Some n → WaitsOnTop n i below call peer what →
        HasGivenUp (step table act S (Timeout port)).state port i below call peer what }
    ensures enabled { (table : List Class) (act : Acting) (S : State) (port : ℕ) →
        (step table act S (Timeout port)).outcome.enabled ≡ true → CanGiveUp S port }
{}
