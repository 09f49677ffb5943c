use do_class::ClassId;

/// An object of a message's sender, by its serial and its class.
///
/// The type itself keeps no limit on either.
#[derive(Clone, Copy, Debug, PartialEq, Eq, PartialOrd, Ord)]
pub struct Pair {
    /// The serial of the object at the sender.
    pub serial: u64,
    /// The class of the object.
    pub class: ClassId,
}
