//! Laws of peers, each carried by a function that does nothing else.
ghost use Rattle.do_network.specs.declared.input.Input.TheVariants as inputs;
ghost use Rattle.std.specs.Prelude.{◌≡◌, ◌==◌, ℕ, List, Some, false, true};
ghost use Rattle.do_base.specs.{names.Names.ObjectName, declared.events.event.Event.Event};
ghost use Rattle.do_class.specs.Class.{Class};
ghost use Rattle.do_frames.specs.declared.frame.RawFrame.{RawFrame};
ghost use Rattle.do_machine.specs.{declared.state.Seat.Seat, Entry.has_entry, State.is_open};
ghost use Rattle.do_machine.specs.{Step.step, run.Run.Acting, take.Take.can_take};
ghost use Rattle.do_facts.specs.{Reached.reached, laws.Entries.IsNoStepOf};
ghost use Rattle.do_network.specs.declared.fault.PeerFault.{PeerFault};
ghost use Rattle.do_network.specs.declared.input.{Done.TheVariants.Closed, Input.Input};
ghost use Rattle.do_network.specs.{Links.Part, Site.site_step};
ghost use Rattle.do_peers.specs.Peers.{ClosedAlone, StaysFor, peer_of};

/// Whatever one peer sends, and however its connection ends, a site keeps what it has for every
/// other peer: its end, the entries and their counts, and what is lent to it.
///
/// So it is for frames that are taken and for frames that are refused.
pub fn other_peers_stay()
    ensures { (table : List Class) (act : Acting) (p : Part) (input : Input) (peer other : ℕ) →
        peer_of input ≡ Some peer → (peer == other) ≡ false →
        StaysFor other p.own (site_step table act p input).part.own }
{}

/// Where the end towards a peer closes, nothing of the node changes but what it had with that peer,
/// what nothing holds any more, and what it held and does not refer to any more. Of other peers'
/// lends and objects it tells them so, and sends them nothing else.
///
/// It is so where a frame is refused, where the end is closed, and where the connection ended.
pub fn closing_changes_no_more()
    ensures refused { (peer : ℕ) (table : List Class) (act : Acting) (p : Part) (f : RawFrame)
        (fault : PeerFault) →
        let h = site_step table act p (inputs.Frame peer f) in
        h.done ≡ Closed peer fault → ClosedAlone peer p.own h.part.own h.sent }
    ensures closed { (peer : ℕ) (table : List Class) (act : Acting) (p : Part) →
        let h = site_step table act p (inputs.Close peer) in
        is_open p.own.node peer ≡ true → ClosedAlone peer p.own h.part.own h.sent }
    ensures ended { (peer : ℕ) (table : List Class) (act : Acting) (p : Part) →
        let h = site_step table act p (inputs.Ended peer) in
        can_take peer p.own.node ≡ true → ClosedAlone peer p.own h.part.own h.sent }
{}

/// In every state that a machine comes to, the entries that peers have of a node's objects change
/// by steps of that node alone.
pub fn entries_change_at_home()
    ensures { (table : List Class) (act : Acting) (seats : List Seat) (events : List Event)
        (event : Event) (peer : ℕ) (o : ObjectName) → IsNoStepOf o.node event →
        has_entry (step table act (reached table act seats events) event).state peer o
        ≡ has_entry (reached table act seats events) peer o }
{}
