ghost use Rattle.std.specs.Prelude.{◌≡◌, Bool, List, ℕ};
ghost use Rattle.do_base.specs.declared.events.event.Event.{Event};
ghost use Rattle.do_class.specs.Class.{Class};
ghost use Rattle.do_machine.specs.declared.{item.Item.Item, node.Node.Node, state.Effect.Effect};
ghost use Rattle.do_machine.specs.declared.state.{Seat.Seat, State.State};
ghost use Rattle.do_machine.specs.{Context.{Context, context}, held.Leaving.leaving};
ghost use Rattle.do_machine.specs.{run.Run.Acting, take.Take.take_effect};
ghost use Rattle.do_facts.specs.{Reached.reached, steps.IsStep.IsRuleOf};
ghost use Rattle.do_agreement.specs.{AreTold.AreTold, Classed.ClassesAreTold};

/// Each name that a node sends tells the class that the node sees of the object, whatever it does.
pub fn sent_names_tell_classes()
    ensures rules { (table : List Class) (act : Acting) (S : State) (event : Event) (n : Node)
        (e : Effect) → IsRuleOf table act S event n e → AreTold (context table S n) e.sent }
    ensures takes { (c : Context) (from : ℕ) (item : Item) →
        AreTold c (take_effect c from item).sent }
    ensures leaving { (c : Context) (entry : ℕ → ℕ → Bool) (n : Node) →
        AreTold c (leaving entry n).sent }
{}

/// In every state that a machine comes to, each object that a node knows has a class, and each name
/// on its way tells it.
pub fn classes_are_told()
    ensures { (table : List Class) (act : Acting) (seats : List Seat) (events : List Event) →
        ClassesAreTold (reached table act seats events) }
{}
