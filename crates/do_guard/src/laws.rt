ghost use Rattle.std.specs.Prelude.{◌≡◌, ◌++◌, ◌∷◌, ℕ, All, List, Some, codes, false};
ghost use Rattle.std.specs.Str.{bytes_eq};
ghost use Rattle.do_base.specs.{names.Names.ObjectName, declared.events.event.Event.Event};
ghost use Rattle.do_base.specs.declared.events.event.Event.TheVariants.{Run};
ghost use Rattle.do_class.specs.{Class.Class, Table.selector_of};
ghost use Rattle.do_behave.specs.declared.invocation.Invocation.{Invocation};
ghost use Rattle.do_behave.specs.declared.invocation.InvState.TheVariants.{Running};
ghost use Rattle.do_native_acts.specs.Places.{selector_in};
ghost use Rattle.do_check.specs.{Rules.verdict_of, declared.rules.Rule.Rule};
ghost use Rattle.do_check.specs.declared.rules.Verdict.TheVariants.{Deny};
ghost use Rattle.do_native.specs.{Acts.native_act, declared.native.Native.Native};
ghost use Rattle.do_machine.specs.declared.{node.{Node.Node, Stored.Stored}, state.Seat.Seat};
ghost use Rattle.do_machine.specs.{declared.state.State.State, Step.step, World.HasSignatures};
ghost use Rattle.do_objects.specs.{OwnClass.AllSound, Reached.{after, object_of, reached}};
ghost use Rattle.do_guard.specs.Checkers.{HasTarget, IsOfCheckers, MaySend, RunRaises, RunsChecker};
ghost use Rattle.do_guard.specs.Checkers.{SendsOnly};

use do_facts::queues_grow_behind;

/// A law alone: over every schedule, a checker whose slot holds a target stays as it is, as long as
/// it is stored. So it is from every sound state on.
///
/// A copy of a checker is an object of its own, with the target that the copied one had.
pub fn targets_stay()
    ensures schedules { (b : Native) (table : List Class) (seats : List Seat)
        (events more : List Event) (o : ObjectName) (x y : Stored) →
        object_of (reached table (native_act b) seats events) o ≡ Some x →
        IsOfCheckers b x.class → HasTarget x →
        object_of (reached table (native_act b) seats (events ++ more)) o ≡ Some y → y ≡ x }
    ensures states { (b : Native) (table : List Class) (S : State) (events : List Event)
        (o : ObjectName) (x y : Stored) → AllSound S → object_of S o ≡ Some x →
        IsOfCheckers b x.class → HasTarget x →
        object_of (after table (native_act b) S events) o ≡ Some y → y ≡ x }
{}

/// A law alone: in every state, what a run of a checker's invocation sends to a peer or to an own
/// object goes to the checker's target. It has the selector of the method that was invoked, which a
/// rule of its class allows.
pub fn checkers_send_to_their_target()
    ensures { (b : Native) (rules : List Rule) (table : List Class) (S : State) (port : ℕ)
        (n : Node) (i : Invocation) (below : List Invocation) →
        RunsChecker b rules S port n i below →
        SendsOnly (MaySend rules table n i) table port S
        (step table (native_act b) S (Run port)).state }
{
    queues_grow_behind();
}

/// A law alone: in every state that a schedule comes to, a running invocation of a checker whose
/// method's selector is denied raises the text of the rule. It goes to the invocation's handler, or
/// ends it. So it is in any state at all where the invocation has its 16 locals.
///
/// The signatures of the table are to be those of methods, as in every world. `guard:` is left out,
/// since a checker answers it by itself, whatever rule there is for it.
pub fn denials_raise_their_rule()
    ensures schedules { (b : Native) (rules : List Rule) (table : List Class) (seats : List Seat)
        (events : List Event) (port : ℕ) (n : Node) (i : Invocation) (below : List Invocation)
        (selector text : List ℕ) → All HasSignatures table →
        RunsChecker b rules (reached table (native_act b) seats events) port n i below →
        i.state ≡ Running → selector_of table i.method ≡ Some selector →
        bytes_eq selector (codes "guard:") ≡ false →
        verdict_of rules selector ≡ Some (Deny text) →
        RunRaises b table (reached table (native_act b) seats events) port n i below text }
    ensures states { (b : Native) (rules : List Rule) (table : List Class) (S : State) (port : ℕ)
        (n : Node) (i : Invocation) (below : List Invocation) (selector text : List ℕ) →
        RunsChecker b rules S port n i below → i.state ≡ Running →
        selector_in table i ≡ Some selector → bytes_eq selector (codes "guard:") ≡ false →
        verdict_of rules selector ≡ Some (Deny text) → RunRaises b table S port n i below text }
{}
