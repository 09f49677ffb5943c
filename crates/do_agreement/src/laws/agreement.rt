ghost use Rattle.std.specs.{Prelude.{◌≡◌, ◌==◌, ℕ, List, map}, List.IsDistinct};
ghost use Rattle.do_base.specs.declared.events.event.Event.{Event};
ghost use Rattle.do_class.specs.{Class.Class, Table.IsTable};
ghost use Rattle.do_lines.specs.Transcript.{transcript};
ghost use Rattle.do_machine.specs.{declared.state.{Seat.Seat, State.State}, State.ports, Step.step};
ghost use Rattle.do_machine.specs.{World.{IsWorld, opening}, check.Blocks.blocks};
ghost use Rattle.do_machine.specs.{check.Snapshot.snapshot, run.Run.Acting};
ghost use Rattle.do_sched.specs.declared.line.Line.{Line};
ghost use Rattle.do_network.specs.{Net.{Net, net_opening}, Snapshot.net_snapshot};
ghost use Rattle.do_network.specs.{Spelled.SendsSpelled, Step.net_step, Wired.{net_blocks, wired}};
ghost use Rattle.do_network.specs.fits.Fits.{Fits};
ghost use Rattle.do_facts.specs.{calls.Facts.CallsAreKept, links.LinksAreKept.LinksAreKept};
ghost use Rattle.do_agreement.specs.Agrees.{Agrees, StepAgrees};
ghost use Rattle.do_agreement.specs.Along.{ComesToTheSame, EventsSendSpelled, LinesSendSpelled};
ghost use Rattle.do_agreement.specs.{Classed.ClassesAreTold, HasWires.HasWires};
ghost use Rattle.do_agreement.specs.WithoutWires.{without_wires};

/// A network of sites opens in agreement with the machine, over every list of nodes.
pub fn networks_open_in_agreement()
    ensures { (table : List Class) (seats : List Seat) →
        Agrees table (net_opening table seats) (opening table seats) }
{}

/// A network that agrees with a state stands for it, where each lend, ask and call of the state is
/// in one place, as in each reached state. So its sites are judged as the machine's nodes, and none
/// of them closes an end for a fault.
pub fn agreeing_networks_stand_for_states()
    ensures { (table : List Class) (N : Net) (S : State) → Agrees table N S → LinksAreKept S →
        CallsAreKept S → Fits table N S }
{}

/// Where a network agrees with a state, an event comes to the same in both, and what it makes of
/// the network agrees with what it makes of the state.
///
/// Premises are that the state tells the classes of what is known and on its way, and that each
/// frame that the event sends has a spelling.
pub fn events_keep_agreement()
    ensures { (table : List Class) → IsTable table → (act : Acting) (N : Net) (S : State) →
        Agrees table N S → LinksAreKept S → CallsAreKept S → ClassesAreTold S →
        (event : Event) → SendsSpelled table act N event →
        StepAgrees table (net_step table act N event) (step table act S event) }
{}

/// Over every schedule from the opening, each event comes to the same in a network of sites and in
/// the machine.
///
/// The premise is that each frame that is sent has a spelling.
pub fn schedules_come_to_the_same()
    ensures { (table : List Class) → IsTable table → (act : Acting) (seats : List Seat)
        (events : List Event) →
        EventsSendSpelled table act (net_opening table seats) events →
        ComesToTheSame table act (net_opening table seats) (opening table seats) events }
{}

/// A check lists the same of a network and of the state that it agrees with, where all ports
/// differ.
pub fn snapshots_are_equal()
    ensures { (table : List Class) (N : Net) (S : State) → Agrees table N S →
        IsDistinct (λ (p q : ℕ). p == q) (ports S) → net_snapshot N ≡ snapshot S }
{}

/// Over every schedule of lines, what a network of sites shows and lists is what the one machine
/// shows and lists, line by line. What is written of it is the machine's transcript, with lines
/// `wire ..` put between its lines.
///
/// The premise is that each frame sent on the way has a spelling.
pub fn networks_write_what_one_machine_writes()
    ensures blocks { (table : List Class) (seats : List Seat) → IsWorld table seats →
        (act : Acting) (lines : List Line) →
        LinesSendSpelled table act (net_opening table seats) lines →
        map (λ b. b.block) (net_blocks table act (net_opening table seats) lines)
        ≡ blocks table act (opening table seats) lines }
    ensures text { (table : List Class) (seats : List Seat) → IsWorld table seats →
        (act : Acting) (lines : List Line) →
        LinesSendSpelled table act (net_opening table seats) lines →
        HasWires (transcript table (blocks table act (opening table seats) lines))
        (wired table (net_blocks table act (net_opening table seats) lines)) }
{}

/// Where a text is another with lines `wire ..` put between its lines, dropping each line that
/// begins with `wire ` leaves the same of both.
pub fn wires_fall_out()
    ensures { (plain text : List ℕ) → HasWires plain text →
        without_wires text ≡ without_wires plain }
{}
