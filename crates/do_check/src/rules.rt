use do_base::{Items, Text};

/// What is done with a message.
#[derive(Debug, PartialEq, Eq, Drop)]
pub enum Verdict {
    /// It goes to the target.
    Forward,
    /// It raises this text, which has at most 255 bytes.
    Deny(Text),
}

/// What is done with the messages of a selector.
#[derive(Debug, PartialEq, Eq, Drop)]
pub struct Rule {
    /// The selector of the messages.
    pub selector: Text,
    /// What is done with them.
    pub verdict: Verdict,
}

/// The rules of a class of checkers. Of two rules for one selector the first counts.
pub type Rules = Items<Rule>;
