ghost use Rattle.std.specs.Prelude.{◌≡◌};
ghost use Rattle.do_center.specs.Registrations.{behaviour_in, behaviour_of, number_of};

use do_base::{ExactClone, Value};

/// What is done with a notification while its observer is suspended, as Apple's documentation of
/// `NSDistributedNotificationCenter` tells it.
#[derive(Clone, Copy, Debug, PartialEq, Eq)]
pub enum Suspension {
    /// It is dropped.
    Drop,
    /// It waits, in the place of earlier ones of the same name and object by this registration.
    Coalesce,
    /// It waits.
    Hold,
    /// It is delivered, behind all that waits for the observer.
    DeliverImmediately,
}

impl ExactClone for Suspension {
    ghost use Rattle.std.proofs.Common.{rules};

    ghost exact_clone = { λ x y h. Prim.search rules };
}

impl Suspension {
    /// The behaviour of a number: 1 Drop, 2 Coalesce, 3 Hold, 4 DeliverImmediately, and 0 stands
    /// for Coalesce. None exactly above 4.
    pub fn of(number: u8) -> Option<Suspension>
        ensures { result ≡ behaviour_of number }
    {
        match number {
            1 => Some(Suspension::Drop),
            0 | 2 => Some(Suspension::Coalesce),
            3 => Some(Suspension::Hold),
            4 => Some(Suspension::DeliverImmediately),
            _ => None,
        }
    }

    /// The number of the behaviour, from 1 to 4.
    pub fn number(self) -> u8
        ensures { result ≡ number_of self }
    {
        match self {
            Suspension::Drop => 1,
            Suspension::Coalesce => 2,
            Suspension::Hold => 3,
            Suspension::DeliverImmediately => 4,
        }
    }
}

/// The behaviour that a value is: a number from 0 to 4.
pub(crate) fn behaviour_in(value: &Value) -> Option<Suspension>
    ensures { result ≡ behaviour_in value.now }
{
    Suspension::of(u8::try_from(value.number()?).ok()?)
}
