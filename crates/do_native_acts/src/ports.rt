ghost use Rattle.std.specs.Prelude.{◌≡◌};
ghost use Rattle.do_native_acts.specs.Ports.{port_in};

use do_base::Value;

/// The port that a value is: a number from 1 to 65,535.
pub fn port_in(value: &Value) -> Option<u16>
    ensures { result ≡ port_in value.now }
{
    let port = u16::try_from(value.number()?).ok()?;
    if port == 0 { None } else { Some(port) }
}
