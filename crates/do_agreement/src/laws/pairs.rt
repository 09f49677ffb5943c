ghost use Rattle.std.specs.Prelude.{◌≡◌, ◌≢◌, ℕ, List, Some, map, true};
ghost use Rattle.do_base.specs.names.Names.{ObjectName, TokenName};
ghost use Rattle.do_machine.specs.{declared.{node.Node.Node, state.State.State}, State.is_open};
ghost use Rattle.do_network.specs.fits.{Calls.OneCall, Lends.{OneAsk, OneLend}};
ghost use Rattle.do_network.specs.fits.Notes.{Note, tells_of, total};
ghost use Rattle.do_facts.specs.{calls.Facts.CallsAreKept, links.LinksAreKept.LinksAreKept};
ghost use Rattle.do_agreement.specs.StandBetween.{StandBetween};

/// Where notes stand for the queues between two nodes of a state, each lend, each ask and each call
/// between these nodes is in one place, as it is in the state. Over an open end no end is on its
/// way that tells of an object.
pub fn pairs_stand_as_in_the_state()
    ensures lends { (S : State) → LinksAreKept S → (n m : Node) (there back : List Note) →
        StandBetween S n m there back → (o : ObjectName) (number : ℕ) →
        OneLend n m there back o number }
    ensures asks { (S : State) → LinksAreKept S → (n m : Node) (there back : List Note) →
        StandBetween S n m there back → (serial : ℕ) (token : TokenName) →
        OneAsk n m there back serial token }
    ensures silent { (S : State) → LinksAreKept S → (n m : Node) (there back : List Note) →
        StandBetween S n m there back → (serial : ℕ) → is_open n m.port ≡ true →
        total (tells_of serial) there ≡ 0 }
    ensures calls { (S : State) → CallsAreKept S → (n m : Node) (there back : List Note) →
        StandBetween S n m there back → (number : ℕ) → OneCall n m there back number }
{}
