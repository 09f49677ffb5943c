use do_base::{Oid, Values};
use do_class::ClassId;

/// What packing asks of the objects of the sending node.
pub trait View {
    ghost use Rattle.std.specs.{Prelude.◌≡◌, Option.option_copied};
    ghost use Rattle.do_packet.specs.Seen.{Seen};

    ghost sees: { Self → Seen };

    /// The class of an own object, and of a foreign one that the node may name. None for any other.
    fn class_of(&self, oid: Oid) -> Option<ClassId>
        ensures { result ≡ (sees self.now).class_of oid };

    /// What the slots of an own object hold. None for any other.
    fn slots(&self, oid: Oid) -> Option<&Values>
        ensures { option_copied result ≡ (sees self.now).slots oid };

    /// Whether a foreign object may be named at present: it is held or asked for, and the end
    /// towards its home is open.
    fn usable(&self, oid: Oid) -> bool
        ensures { result ≡ (sees self.now).usable oid };
}
