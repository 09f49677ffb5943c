ghost use Rattle.std.specs.Prelude.{◌≡◌, ◌==◌, ◌+◌, ◌-◌, ℕ, None, Some, false, filter, length};
ghost use Rattle.do_base.specs.names.Names.{ObjectName};
ghost use Rattle.do_class.specs.declared.ids.ClassId.{ClassId};
ghost use Rattle.do_export.specs.Counts.{Counts, count_of};
ghost use Rattle.do_frames.specs.declared.frame.Frame.TheVariants.{Release};
ghost use Rattle.do_machine.specs.declared.{item.Item.Item, state.{Effect.Effect, Parcel.Parcel}};
ghost use Rattle.do_machine.specs.{Items.exported, State.{is_known, is_open}};
ghost use Rattle.do_network.specs.{Counting.{got, named_to}, Own.{Own, class_kept}};
ghost use Rattle.do_network.specs.Site.{released_by, site_move};

/// Each name of an own object counts for the peer as soon as it is sent.
pub fn sent_names_are_counted()
    ensures { (port : ℕ) (counts : Counts) (x : Parcel) (serial : ℕ) →
        count_of (named_to port counts x) x.to serial
        ≡ count_of counts x.to serial
        + length (filter (λ o. o.serial == serial) (exported port x.to x.item)) }
{}

/// A release takes off as many names as the peer gives back.
pub fn names_back_are_taken_off()
    ensures { (p : Own) (from serial amount : ℕ) →
        count_of (released_by from (Release serial amount) p).counts from serial
        ≡ count_of p.counts from serial - amount }
{}

/// After each move of a site nothing is counted over an end that is closed.
pub fn closed_ends_count_nothing()
    ensures { (p : Own) (e : Effect) (peer serial : ℕ) →
        is_open (site_move p e).own.node peer ≡ false →
        count_of (site_move p e).own.counts peer serial ≡ 0 }
{}

/// The class that the first name told of a foreign object stays, whatever a peer tells of it.
pub fn first_classes_stay()
    ensures { (p : Own) (from : ℕ) (item : Item) (o : ObjectName) (class : ClassId) →
        class_kept p o ≡ Some class → class_kept (got from item p) o ≡ Some class }
{}

/// After each move of a site no class is kept of what it neither holds nor asked for.
pub fn unknown_objects_have_no_class()
    ensures { (p : Own) (e : Effect) (o : ObjectName) →
        is_known (site_move p e).own.node o ≡ false → class_kept (site_move p e).own o ≡ None }
{}
