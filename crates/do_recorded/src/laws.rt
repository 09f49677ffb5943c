ghost use Rattle.std.specs.{Prelude.{List, map, ℕ, ◌<◌, ◌^◌, ◌≡◌}, List.AllByRecursion};
ghost use Rattle.do_at_hand.specs.AtHand.{ShowsNames};
ghost use Rattle.do_class.specs.Class.{Class};
ghost use Rattle.do_limits.specs.SendableActs.{KeepsSendable};
ghost use Rattle.do_link.specs.Told.{Told};
ghost use Rattle.do_machine.specs.{World.{IsSeat, IsWorld, by_port}, declared.state.Seat.Seat};
ghost use Rattle.do_machine.specs.run.Run.{Acting};
ghost use Rattle.do_net.specs.Seen.{Seen, at_rest};
ghost use Rattle.do_network.specs.Net.{opening_part};
ghost use Rattle.do_serve.specs.{Hosting.site_rules, Serving.{Server, serve_from}};
ghost use Rattle.do_recorded.specs.Chain.{CameAsBytes, IsServer, ReadsBack};

/// Whatever the link tells, serving a node of a world does some inputs one after another, none of
/// them a time-out. The frames that are handed over are among those that these inputs send.
///
/// The whole that serving writes is read as a record, whatever the peers send. It has a block at
/// its line for each input that moved or closed an end, and is whole where serving ended by its
/// starts.
///
/// Premises are that the node serves from its opening on, for fewer than 2^46 turns, and that the
/// acts of the behaviour are within the limits and name only what they were shown.
pub fn served_records_are_read()
    ensures { (table : List Class) (act : Acting) (seats : List Seat) (seat : Seat) (turns : ℕ)
        (s : Server Seen) (told : List Told) → IsWorld table seats → IsSeat table seat →
        KeepsSendable table act → ShowsNames table act →
        s.core.part ≡ at_rest table act (opening_part table (map (λ x. x.node) (by_port seats)) seat)
        → IsServer s → AllByRecursion CameAsBytes told → turns < 2 ^ 46 →
        ReadsBack seat.node s (serve_from site_rules seat.node turns s told) }
{}
