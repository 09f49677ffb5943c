//! What a checker sends, and what it never does.
ghost use Rattle.do_check.specs.Sent.{OnlyAllowedIsSent, TargetStays, DenialRaises};

/// A law alone: a checker sends only the message at hand, where a rule allows it, and only to its
/// target.
pub fn only_allowed_is_sent()
    ensures { OnlyAllowedIsSent }
{}

/// A law alone: where a target is set, no act of a checker writes a slot.
pub fn target_stays()
    ensures { TargetStays }
{}

/// A law alone: a message that is denied raises the text of its rule, at every place.
pub fn denial_raises()
    ensures { DenialRaises }
{}
