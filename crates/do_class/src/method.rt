use do_base::{Items, Text};
use do_sig::Signature;

/// A method: its selector and the types of its arguments and its result.
#[derive(Debug, Drop)]
pub struct Method {
    /// The selector, with a colon for each argument.
    pub selector: Text,
    /// The types of the arguments and of the result.
    pub signature: Signature,
}

/// The methods of a class, in order.
pub type Methods = Items<Method>;
