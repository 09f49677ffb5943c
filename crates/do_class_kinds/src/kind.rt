ghost use Rattle.std.specs.Prelude.{◌≡◌};
ghost use Rattle.do_class_kinds.specs.Kinds.{kind_named};

use do_base::Items;
use do_check::Rules;
use do_grammar::is_text;

/// What decides what the objects of a class do.
#[derive(Clone, Copy, Debug, PartialEq, Eq)]
pub enum Kind {
    /// The codes of the class's methods.
    Script,
    /// The server of names, as GNUstep's `gdomap` has them.
    Names,
    /// The pasteboard, after `NSPasteboard`.
    Pasteboard,
    /// The server of services, after the Services of macOS and of GNUstep.
    Services,
    /// The center of notices, after `NSDistributedNotificationCenter`.
    Center,
    /// The rules of the class's checkers, after `NSProtocolChecker`.
    Checker,
}

/// The kinds of classes, one for each class of a table, in its order.
pub type Kinds = Items<Kind>;

/// The rules of classes, one list for each class of a table, in its order. The list of a class is
/// empty where its kind is not `Checker`.
pub type RuleTable = Items<Rules>;

/// The native kind of a name: `names`, `pasteboard`, `services`, `center` or `checker`. None
/// exactly for every other text.
///
/// The names are this project's own.
pub fn kind_named(text: &[u8]) -> Option<Kind>
    ensures { result ≡ kind_named text.now }
{
    if is_text(text, b"names") {
        return Some(Kind::Names);
    }
    if is_text(text, b"pasteboard") {
        return Some(Kind::Pasteboard);
    }
    if is_text(text, b"services") {
        return Some(Kind::Services);
    }
    if is_text(text, b"center") {
        return Some(Kind::Center);
    }
    if is_text(text, b"checker") {
        return Some(Kind::Checker);
    }
    None
}
