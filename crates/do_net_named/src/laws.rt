ghost use Rattle.std.specs.{Prelude.{◌≡◌, List}, List.AllByRecursion};
ghost use Rattle.do_base.specs.names.Names.{ObjectName};
ghost use Rattle.do_class.specs.Class.{Class};
ghost use Rattle.do_leaks.specs.Leaks.{leaks};
ghost use Rattle.do_lost.specs.Named.{named, quiet};
ghost use Rattle.do_machine.specs.{check.Snapshot.snapshot, declared.state.State.State};
ghost use Rattle.do_machine.specs.run.Run.{Acting};
ghost use Rattle.do_net.specs.OneMachine.{StandsFor};
ghost use Rattle.do_net_named.specs.{Lost.{HasClassesOf, net_still}, Named.net_named};
ghost use Rattle.do_network.specs.{Net.Net, Snapshot.net_snapshot};
ghost use Rattle.do_packet.specs.Met.{has_object};

/// A network names, beside the slots of its objects, exactly the objects that the state of the one
/// machine names for which it stands.
///
/// What its sites name is known to them. What is under way is read from the bytes of the frames, by
/// the names that their reader read last. What the bytes of ends leave out are the objects that a
/// site still counts for peers whose ends are closed.
pub fn networks_name_what_states_name()
    ensures { (table : List Class) (act : Acting) (N : Net) (S : State) →
        StandsFor table act N S → (o : ObjectName) →
        has_object (net_named table N) o ≡ has_object (named S) o }
{}

/// So a search from what a network names finds what a search in the state finds. The same objects
/// are those that nothing can reach, each with the same slot that names it and of the same class.
/// Both tell alike whether nothing is under way.
pub fn searches_find_the_same()
    ensures leaks { (table : List Class) (act : Acting) (N : Net) (S : State) →
        StandsFor table act N S →
        leaks (net_snapshot N) (net_named table N) ≡ leaks (snapshot S) (named S) }
    ensures classes { (table : List Class) (act : Acting) (N : Net) (S : State) →
        StandsFor table act N S →
        AllByRecursion (HasClassesOf N S) (leaks (net_snapshot N) (net_named table N)) }
    ensures quiet { (table : List Class) (act : Acting) (N : Net) (S : State) →
        StandsFor table act N S → net_still N ≡ quiet S }
{}
