//! The lists of methods that a class may have.
ghost use Rattle.std.specs.Prelude.{◌≡◌, map};
ghost use Rattle.do_document.specs.Lists.{key_of, keys_of, place_of};

use crate::place::Place;

/// A list of methods that stands in a class.
#[derive(Clone, Copy, Debug)]
pub(crate) enum MethodList {
    /// The methods of a class of scripts.
    Own,
    /// The methods that a checker passes on.
    Allowed,
    /// The methods that a checker answers with a rule.
    Denied,
}

/// The keys that a method of a class of scripts may have.
const OWN_KEYS: [&str; 3] = ["code", "selector", "types"];

/// The keys that an allowed method may have.
const ALLOWED_KEYS: [&str; 2] = ["selector", "types"];

/// The keys that a denied method may have.
const DENIED_KEYS: [&str; 3] = ["rule", "selector", "types"];

impl MethodList {
    /// The key at which the list stands in its class.
    pub(crate) fn key(self) -> &'static str
        ensures { result.now ≡ key_of self }
    {
        match self {
            MethodList::Own => "method",
            MethodList::Allowed => "allow",
            MethodList::Denied => "deny",
        }
    }

    /// The keys that a table of the list may have.
    pub(crate) fn keys(self) -> &'static [&'static str]
        ensures { map (λ k. k.now) result.now ≡ keys_of self }
    {
        match self {
            MethodList::Own => &OWN_KEYS,
            MethodList::Allowed => &ALLOWED_KEYS,
            MethodList::Denied => &DENIED_KEYS,
        }
    }

    /// The place of a table of the list, by the number of its class and its own.
    pub(crate) fn place(self, class: usize, k: usize) -> Place
        ensures { result ≡ place_of self class k }
    {
        match self {
            MethodList::Own => Place::Method(class, k),
            MethodList::Allowed => Place::Allowed(class, k),
            MethodList::Denied => Place::Denied(class, k),
        }
    }
}
