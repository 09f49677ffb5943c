//! Names of observers, and what is an observer's.
ghost use Rattle.std.specs.Prelude.{◌≡◌, ◌<◌, IfSome, length};
ghost use Rattle.do_base.specs.names.Names.{ObjectName};
ghost use Rattle.do_center.specs.Observers.{first_of, same_object};

use do_base::Oid;

/// Whether two names are of one object.
pub(crate) fn same(a: Oid, b: Oid) -> bool
    ensures { result ≡ same_object a b }
{
    a.node == b.node && a.serial == b.serial
}

/// What is an observer's.
pub(crate) trait Observed {
    ghost observer: { Self → ObjectName };

    /// Whose it is.
    fn observer(&self) -> Oid
        ensures { result ≡ observer self.now };
}

/// The place of the first that is an observer's.
pub(crate) fn first_of<T: Observed>(list: &[T], observer: Oid) -> Option<usize>
    ensures first { result ≡ first_of T.observer list.now observer }
    ensures within { IfSome result (λ at. at < length list.now) }
{
    for at in 0..list.len() {
        if same(list[at].observer(), observer) {
            return Some(at);
        }
    }
    None
}
