ghost use Rattle.do_sig.specs.Places as places;
ghost use Rattle.std.specs.Prelude.{◌≡◌};

/// Where an encoding stands.
#[derive(Clone, Copy)]
pub(crate) enum Place {
    /// By itself: it may be a result's or an argument's.
    Alone,
    Returned,
    Argument,
}

/// Whether a result may stand here, and so `v` and `V`.
pub(crate) fn may_return(place: Place) -> bool
    ensures { result ≡ places.may_return place }
{
    !matches!(place, Place::Argument)
}

/// Whether an argument may stand here, and so `^`.
pub(crate) fn may_point(place: Place) -> bool
    ensures { result ≡ places.may_point place }
{
    !matches!(place, Place::Returned)
}
