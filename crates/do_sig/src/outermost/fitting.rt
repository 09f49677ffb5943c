ghost use Rattle.std.specs.Prelude.{◌≡◌};
ghost use Rattle.do_sig.specs.Fits.{outermost_fits};

use crate::types::fitting::type_fits;
use crate::value_type::OutermostType;
use do_base::Value;

/// Whether a value fits a type where it stands outermost.
pub(crate) fn fits_outermost(value_type: &OutermostType, value: &Value) -> bool
    ensures { result ≡ outermost_fits value_type.now value.now }
{
    match value_type {
        OutermostType::Void => matches!(value, Value::Nil),
        OutermostType::Pointer(target) => matches!(value, Value::Nil) || type_fits(target, value),
        OutermostType::Plain(plain) => type_fits(plain, value),
    }
}
