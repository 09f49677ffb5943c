//! The sites of a network by their ports.
//!
//! Where ports were listed twice, each site would have the behaviour of the first of them; a
//! world lists none twice.
//!
//! Sites stand by rising port and the channels of each by rising peer, which their types keep;
//! both are found by halves. Where ports were listed twice the first is found, as the
//! definitions say.
ghost use Rattle.std.specs.List.Sorted.{IsNonDecreasingBy};

use crate::host::Host;
use do_base::Items;

/// Sites with their lanes, by rising port.
#[derive(Drop)]
pub struct Hosts<S> {
    pub(crate) items: Items<Host<S>>,
    ghost rising: { IsNonDecreasingBy (λ h. h.port) items },
}
