//! In which orders inputs of different nodes may come.
ghost use Rattle.std.specs.Prelude.{◌==◌, ◌≡◌, Err, List, Some, false, ℕ};
ghost use Rattle.do_machine.specs.{World.opening, declared.state.{Seat.Seat, State.State}};
ghost use Rattle.do_machine.specs.declared.state.Stepped.{Stepped};
ghost use Rattle.do_record.specs.declared.parts.{Record.Record, RecordLine.RecordLine};
ghost use Rattle.do_weave.specs.{Inputs.tried, Laws.AreApart};
ghost use Rattle.do_weave.specs.{Orders.{CanBeDone, InputsCommute, IsReached}, Rules.Rules};
ghost use Rattle.do_weave.specs.{Weaving.woven, declared.fault.WeaveFault.WeaveFault};
ghost use Rattle.do_orders.specs.{Inputs.ByMove, Moves.{Move, Stands, done}};

/// Moves of two nodes change a state to one state in either order.
///
/// What each takes off the queues to its node must be there; nothing else is asked of the state.
pub fn moves_of_two_nodes_commute()
    ensures { (m k : Move) (S : State) → (m.port == k.port) ≡ false →
        Stands m.port m.source S → Stands k.port k.source S →
        done m (done k S) ≡ done k (done m S) }
{}

/// In every state that a machine comes to, an enabled input is a move of its node, decided by what
/// the node then knows of the rest of the machine.
///
/// In any state an input that is such a move is enabled.
pub fn enabled_inputs_are_moves()
    ensures moves { (R : Rules) (seats : List Seat) (S : State) (port : ℕ) (input : RecordLine)
        (a : Stepped) → IsReached R seats S → tried R S port input ≡ Some a →
        ByMove R S port input a }
    ensures enabled { (R : Rules) (S : State) (port : ℕ) (input : RecordLine) (a : Stepped) →
        ByMove R S port input a → tried R S port input ≡ Some a }
{}

/// In every state that a machine comes to, two enabled inputs of different nodes stay enabled
/// behind one another, show the same, and come to one state in either order.
pub fn inputs_of_two_nodes_commute()
    ensures { (R : Rules) (seats : List Seat) → InputsCommute R seats }
{}

/// A contradiction that weaving finds stands in every order of the inputs that keeps each record's
/// own: no order does what the records say.
///
/// It is so for every world and behaviour, and from every state that a machine comes to.
pub fn contradictions_stand_in_every_order()
    ensures opening { (R : Rules) (seats : List Seat) (records : List Record)
        (fault : WeaveFault) → AreApart records →
        woven R (opening R.table seats) records ≡ Err fault →
        CanBeDone R (opening R.table seats) records → ⊥ }
    ensures reached { (R : Rules) (seats : List Seat) (S : State) (records : List Record)
        (fault : WeaveFault) → IsReached R seats S → AreApart records →
        woven R S records ≡ Err fault → CanBeDone R S records → ⊥ }
{}
