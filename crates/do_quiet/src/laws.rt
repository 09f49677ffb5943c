ghost use Rattle.std.specs.{Prelude.{List, ℕ, ◌++◌}, List.AllByRecursion};
ghost use Rattle.do_base.specs.declared.events.event.Event.{Event};
ghost use Rattle.do_class.specs.Class.{Class};
ghost use Rattle.do_machine.specs.{declared.{node.Lend.Lend, state.Seat.Seat}, run.Run.Acting};
ghost use Rattle.do_facts.specs.{Reached.reached, Made.is_stored};
ghost use Rattle.do_quiet.specs.{Keeping.{AreKeptByAll, NodesKeep}, Lasting.IsKeptWhileLent};
ghost use Rattle.do_quiet.specs.{Lasting.{IsLent, NoNotice}, Quiet.{AllEndsOpen, AsksAreGranted}};
ghost use Rattle.do_quiet.specs.Quiet.{IsNoBreak, LentAreKept, NothingLent, NothingWaits};

/// Where nothing is closed and nothing lost, all ends stay open.
pub fn ends_stay_open_unless_broken()
    ensures { (table : List Class) (act : Acting) (seats : List Seat) (events : List Event) →
        AllByRecursion IsNoBreak events → AllEndsOpen (reached table act seats events) }
{}

/// As long as all ends are open, each node holds or asks for each object that it lends. It does
/// from when it lends the object until it takes the notice that the lend is over.
pub fn lent_objects_are_kept()
    ensures { (table : List Class) (act : Acting) (seats : List Seat) (events : List Event) →
        AllEndsOpen (reached table act seats events) →
        LentAreKept (reached table act seats events) }
{}

/// As long as all ends are open, a lend lasts over a run until its node takes the borrower's notice
/// that it is over. So long the node holds or asks for the object.
pub fn lends_last_while_ends_are_open()
    ensures { (table : List Class) (act : Acting) (seats : List Seat) (events more : List Event)
        (port : ℕ) (l : Lend) → IsLent (reached table act seats events) port l →
        AllEndsOpen (reached table act seats (events ++ more)) →
        NoNotice table act (reached table act seats events) port l more →
        IsKeptWhileLent (reached table act seats (events ++ more)) port l }
{}

/// As long as all ends are open, each object that a node asks for is stored at its home, and no ask
/// is refused.
pub fn asks_are_granted()
    ensures { (table : List Class) (act : Acting) (seats : List Seat) (events : List Event) →
        AllEndsOpen (reached table act seats events) →
        AsksAreGranted (reached table act seats events) }
{}

/// Where all ends are open and nothing is on its way, no node lends an object or asks for one.
pub fn nothing_is_lent_when_quiet()
    ensures { (table : List Class) (act : Acting) (seats : List Seat) (events : List Event) →
        AllEndsOpen (reached table act seats events) →
        NothingWaits (reached table act seats events) →
        NothingLent (reached table act seats events) }
{}

/// In every state that a machine comes to, what each node stores holds itself up, with the entries
/// of that state. A node holds no foreign object that it does not name.
pub fn nodes_keep_what_is_held_up()
    ensures { (table : List Class) (act : Acting) (seats : List Seat) (events : List Event) →
        NodesKeep (reached table act seats events) }
{}

/// Where all ends are open and nothing is on its way, the stored objects are exactly those that all
/// nodes together keep. That is the greatest set of stored objects of which each is a root, or is
/// named by an invocation or by a member's slot, on whichever node.
pub fn stored_are_kept_by_all()
    ensures { (table : List Class) (act : Acting) (seats : List Seat) (events : List Event) →
        AllEndsOpen (reached table act seats events) →
        NothingWaits (reached table act seats events) →
        AreKeptByAll (reached table act seats events) (is_stored (reached table act seats events)) }
{}
