//! What a checker among the classes of a world does.
ghost use Rattle.do_native.specs.Checked.{FollowTheirRules};

/// A law alone: an invocation of a class of checkers acts by the rules of its class, so that the
/// laws of do_check hold of it.
pub fn checkers_follow_their_rules()
    ensures { FollowTheirRules }
{}
