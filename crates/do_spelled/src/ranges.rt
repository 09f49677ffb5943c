//! What the types of numbers, ports and texts give: laws alone, for which nothing is tested.
ghost use Rattle.std.specs.Prelude.{◌≤◌, ◌<◌, ◌^◌};
ghost use Rattle.do_grammar.specs.{Grammar.IsBytes, Num.zigzag};

use do_base::NodeId;

/// A number of 64 bits is spelled by one of 64 bits.
pub(crate) fn number_fits(number: i64)
    ensures { zigzag number < 2 ^ 64 }
{}

/// A port has 16 bits, and is not 0.
pub(crate) fn port_fits(node: NodeId)
    ensures least { 1 ≤ node }
    ensures most { node ≤ 65535 }
{
    let _port = node.port();
}

/// What a slice of bytes holds are bytes.
pub(crate) fn bytes_fit(bytes: &[u8])
    ensures { IsBytes bytes.now }
{
    let _few = bytes.len();
}
