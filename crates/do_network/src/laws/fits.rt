ghost use Rattle.do_network.specs.declared.input.Input.TheVariants as inputs;
ghost use Rattle.std.specs.Prelude.{◌≡◌, ◌==◌, ◌∷◌, ℕ, List, None, Some, false, true};
ghost use Rattle.do_class.specs.{Class.Class, Table.IsTable};
ghost use Rattle.do_frames.specs.declared.frame.RawFrame.{RawFrame};
ghost use Rattle.do_machine.specs.{declared.state.{State.State, Seat.Seat}, Context.context};
ghost use Rattle.do_machine.specs.{State.is_open, World.opening, run.Run.Acting};
ghost use Rattle.do_machine.specs.take.Take.{can_take};
ghost use Rattle.do_network.specs.{declared.input.Done.TheVariants.Moved, Faults.peer_fault};
ghost use Rattle.do_network.specs.{Links.Part, Net.{Carried, Channel, Net, Whole, channel}};
ghost use Rattle.do_network.specs.{Net.{net_opening, part_at}, Own.site_context, Site.site_step};
ghost use Rattle.do_network.specs.fits.{Fits.Fits, Notes.{Note, note_frame}};

/// A network of sites opens as the machine does, over every list of nodes.
pub fn opening_fits()
    ensures { (table : List Class) (seats : List Seat) →
        Fits table (net_opening table seats) (opening table seats) }
{}

/// In a network that stands for a state, each site is judged as the machine's node: its runs,
/// takes and starts have the effects that they have there.
pub fn fitting_sites_judge_alike()
    ensures { (table : List Class) (N : Net) (S : State) (port : ℕ) (p : Part) →
        Fits table N S → part_at N port ≡ Some p →
        site_context table p.own ≡ context table S p.own.node }
{}

/// In a network that stands for a state, the next frame on its way to a site whose end is open is
/// one that its peer may send.
pub fn fitting_frames_have_no_fault()
    ensures { (table : List Class) (N : Net) (S : State) (F : Fits table N S) (port from : ℕ)
        (p q : Part) → part_at N port ≡ Some p → part_at N from ≡ Some q →
        (port == from) ≡ false → is_open p.own.node from ≡ true → (x : Note) (xs : List Note) →
        F.under_way from port ≡ x ∷ xs → peer_fault p.own from (note_frame x) ≡ None }
{}

/// In a network that stands for a state, a site that can take the next frame in a channel to it
/// reads and takes it. No site closes an end for a fault.
pub fn fitting_frames_are_taken()
    ensures { (table : List Class) → IsTable table → (act : Acting) (N : Net) (S : State) →
        Fits table N S → (port from : ℕ) (p : Part) → part_at N port ≡ Some p →
        can_take from p.own.node ≡ true → (c : Channel) → channel N from port ≡ Some c →
        (f : RawFrame) (rest : List Carried) → c.waiting ≡ Whole f ∷ rest →
        (site_step table act p (inputs.Frame from f)).done ≡ Moved }
{}
