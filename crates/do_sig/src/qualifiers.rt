ghost use Rattle.std.specs.Prelude.{◌≡◌};
ghost use Rattle.do_sig.specs.Bare.{bare};

/// Which way an argument's value goes, as `n`, `N` and `o` say.
///
/// Apple's "The Objective-C Programming Language" has them as `in`, `inout` and `out`, under
/// "Remote Messaging". They mean something for pointers alone.
#[derive(Clone, Copy, Debug)]
pub enum Direction {
    /// No letter.
    Unmarked,
    /// `n`.
    In,
    /// `N`.
    InOut,
    /// `o`.
    Out,
}

/// How an object is passed, as `O` and `R` say: `bycopy` and `byref` of Objective-C.
#[derive(Clone, Copy, Debug)]
pub enum Passing {
    /// No letter.
    Unmarked,
    /// `O`.
    ByCopy,
    /// `R`.
    ByRef,
}

/// What stands before an outermost type, each letter at most once and in any order.
#[derive(Clone, Copy, Debug)]
pub struct Qualifiers {
    /// `V`, which stands before a result of type `v` alone.
    pub oneway: bool,
    /// `r`, a constant pointer's target.
    pub constant: bool,
    /// `n`, `N` or `o`.
    pub direction: Direction,
    /// `O` or `R`.
    pub passing: Passing,
}

/// What an argument's qualifiers and type mean for a call.
#[derive(Clone, Copy, Debug)]
pub struct Qualifier {
    /// Whether the caller's value goes to the receiver.
    pub goes_in: bool,
    /// Whether the receiver's value comes back.
    pub comes_out: bool,
    /// Whether objects are passed as copies.
    pub copy: bool,
}

impl Qualifiers {
    /// No qualifiers.
    pub fn none() -> Qualifiers
        ensures { result ≡ bare }
    {
        Qualifiers {
            oneway: false,
            constant: false,
            direction: Direction::Unmarked,
            passing: Passing::Unmarked,
        }
    }
}
