ghost use Rattle.std.specs.Prelude.{◌≡◌};
ghost use Rattle.do_packet.specs.Met.{role_of};

use crate::view::View;
use do_base::{NodeId, Oid};

/// What a message makes of an object.
#[derive(Clone, Copy, Debug, PartialEq, Eq)]
pub enum Role {
    /// It is sent with its slots.
    Copied,
    /// It is sent by its name.
    Named,
    /// It becomes nil.
    Absent,
}

/// What becomes of an object in a place that is bycopy or not.
pub(crate) fn role_at<V: View>(view: &V, from: NodeId, copy: bool, oid: Oid) -> Role
    ensures { result ≡ role_of (V.sees view.now) from copy oid }
{
    if view.class_of(oid).is_none() {
        return Role::Absent;
    }
    let home = oid.node;
    if home == from {
        if copy { Role::Copied } else { Role::Named }
    } else if view.usable(oid) {
        Role::Named
    } else {
        Role::Absent
    }
}
