ghost use Rattle.std.specs.Prelude.{◌≡◌};
ghost use Rattle.do_sig.specs.Calls.{is_in, is_out, is_bycopy};

use crate::qualifiers::{Direction, Passing, Qualifiers};
use crate::value_type::OutermostType;

/// Whether an argument's value goes to the receiver.
pub(crate) fn goes_in(value_type: &OutermostType, qualifiers: &Qualifiers) -> bool
    ensures { result ≡ is_in value_type.now qualifiers.now }
{
    match (value_type, qualifiers.direction) {
        (OutermostType::Pointer(_), Direction::Out) => false,
        _ => true,
    }
}

/// Whether an argument's value comes back, where the signature is not oneway.
pub(crate) fn comes_out(value_type: &OutermostType, qualifiers: &Qualifiers) -> bool
    ensures { result ≡ is_out value_type.now qualifiers.now }
{
    match (value_type, qualifiers.direction) {
        (OutermostType::Pointer(_), Direction::Unmarked) => !qualifiers.constant,
        (OutermostType::Pointer(_), Direction::InOut | Direction::Out) => true,
        _ => false,
    }
}

/// Whether objects are passed as copies.
pub(crate) fn bycopy(qualifiers: &Qualifiers) -> bool
    ensures { result ≡ is_bycopy qualifiers.now.passing }
{
    matches!(qualifiers.passing, Passing::ByCopy)
}
