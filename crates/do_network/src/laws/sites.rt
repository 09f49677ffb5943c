ghost use Rattle.std.specs.Prelude.{◌≡◌, ◌==◌, ℕ, List, Some, false};
ghost use Rattle.do_class.specs.Class.{Class};
ghost use Rattle.do_machine.specs.{declared.state.State.State, Context.context, run.Run.Acting};
ghost use Rattle.do_network.specs.declared.input.{Done.TheVariants.Skipped, Input.Input};
ghost use Rattle.do_network.specs.{Links.Part, Net.{Net, part_at}, Own.{Own, site_context}};
ghost use Rattle.do_network.specs.Site.{Handled, enabled_input, passed, site_step};
ghost use Rattle.do_network.specs.{Step.net_moved, laws.Sites.{IsDone, SeesAs}};

/// An input that is skipped changes nothing, and nothing is sent or shown.
pub fn skipped_changes_nothing()
    ensures { (table : List Class) (act : Acting) (p : Part) (input : Input) →
        (site_step table act p input).done ≡ Skipped → site_step table act p input ≡ passed p }
{}

/// An input that is enabled is done, or closes an end for a fault.
pub fn enabled_is_not_skipped()
    ensures { (table : List Class) (act : Acting) (p : Part) (input : Input) (h : Handled) →
        enabled_input table act p input ≡ Some h → IsDone h.done }
{}

/// What a site does changes no other site.
pub fn other_sites_stay()
    ensures { (port other : ℕ) (N : Net) (h : Handled) → (other == port) ≡ false →
        part_at (net_moved port N h).net other ≡ part_at N other }
{}

/// A site that knows by its counts what the machine's node knows is judged as that node.
pub fn judged_alike()
    ensures { (table : List Class) (S : State) (p : Own) → SeesAs S p →
        site_context table p ≡ context table S p.node }
{}
