ghost use Rattle.std.specs.Prelude.{List, false, map, true, ℕ, ◌<◌, ◌^◌, ◌≡◌};
ghost use Rattle.std.specs.List.{AllByRecursion};
ghost use Rattle.do_at_hand.specs.AtHand.{ShowsNames};
ghost use Rattle.do_class.specs.Class.{Class};
ghost use Rattle.do_limits.specs.SendableActs.{KeepsSendable};
ghost use Rattle.do_link.specs.Told.{Told};
ghost use Rattle.do_machine.specs.{World.{IsSeat, IsWorld, opening}, declared.state.Seat.Seat};
ghost use Rattle.do_machine.specs.run.Run.{Acting};
ghost use Rattle.do_net.specs.Seen.{Seen};
ghost use Rattle.do_record.specs.declared.parts.Record.{Record};
ghost use Rattle.do_serve.specs.{Answers.record_text, Hosting.site_rules};
ghost use Rattle.do_serve.specs.Serving.{Server, serve_from};
ghost use Rattle.do_weave.specs.Orders.{CanBeDone};
ghost use Rattle.do_woven.specs.Judging.{has_record, has_seat};
ghost use Rattle.do_recorded.specs.Chain.{CameAsBytes, IsServer};
ghost use Rattle.do_exchanged.specs.Files.{IsReadBehind};
ghost use Rattle.do_exchanged.specs.Runs.{Exchanged, Ran, opens, record_of_run};

/// What the nodes of a world recorded can be done by the one machine in some order, where they
/// exchanged their bytes unchanged: what each took of a peer begins what this sent for it.
///
/// Premises are that the world is one, that acts of the behaviour are within the limits, and that
/// there are fewer than 2^45 inputs.
pub fn exchanged_records_can_be_done()
    ensures { (table : List Class) (act : Acting) (seats : List Seat) (runs : List Ran) →
        IsWorld table seats → KeepsSendable table act → Exchanged table act seats runs →
        CanBeDone (record { table = table; act = act }) (opening table seats)
        (map (record_of_run table act seats) runs) }
{}

/// What a node of a world wrote that served is read as the record of the inputs that it did, behind
/// the records of other nodes, whatever its peers send.
///
/// Premises are those of `served_records_are_read`, and that no earlier record is of this node. The
/// steps of the records together are to be no more than those of any schedule.
pub fn served_files_are_read()
    ensures { (table : List Class) (act : Acting) (seats : List Seat) (seat : Seat) (turns : ℕ)
        (s : Server Seen) (told : List Told) (earlier : List Record) → IsWorld table seats →
        IsSeat table seat → has_seat seats seat.node ≡ true → KeepsSendable table act →
        ShowsNames table act → s.core.part ≡ opens table act seats seat → IsServer s →
        AllByRecursion CameAsBytes told → turns < 2 ^ 46 → has_record earlier seat.node ≡ false →
        IsReadBehind table act seats earlier seat
        (record_text seat.node (serve_from site_rules seat.node turns s told)) }
{}
