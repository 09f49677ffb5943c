//! Laws of native acts, each carried by a function that does nothing else.
ghost use Rattle.std.specs.{Prelude.List, List.AllByRecursion};
ghost use Rattle.do_class.specs.Class.{Class};
ghost use Rattle.do_check.specs.{Acts.check_act, declared.rules.Rule.Rule};
ghost use Rattle.do_names.specs.Acts.{names_act};
ghost use Rattle.do_pboard.specs.Acts.{pasteboard_act};
ghost use Rattle.do_services.specs.Acts.{services_act};
ghost use Rattle.do_center.specs.Acts.{center_act};
ghost use Rattle.do_native.specs.{Acts.{IsMadeFor, native_act}, declared.native.Native.Native};
ghost use Rattle.do_carried.specs.Ranged.{CodesAreRanged, RulesAreRanged};
ghost use Rattle.do_limits.specs.{SendableActs.KeepsSendable, SendableCodes.CodesAreSendable};
ghost use Rattle.do_kept.specs.Kept.{RulesAreSendable};

/// A checker keeps values within the limits: where sixteen locals and the slots can be carried by
/// a message, so can the values of each act.
///
/// The premise is that the texts of its denials can be.
pub fn checkers_keep_values_sendable()
    ensures { (rules : List Rule) → RulesAreSendable rules → (table : List Class) →
        KeepsSendable table (check_act rules) }
{}

/// So does a server of names, with no premise.
pub fn servers_of_names_keep_values_sendable()
    ensures { (table : List Class) → KeepsSendable table names_act }
{}

/// So does a pasteboard.
pub fn pasteboards_keep_values_sendable()
    ensures { (table : List Class) → KeepsSendable table pasteboard_act }
{}

/// So does a server of services.
pub fn servers_of_services_keep_values_sendable()
    ensures { (table : List Class) → KeepsSendable table services_act }
{}

/// So does a notification centre.
pub fn centers_keep_values_sendable()
    ensures { (table : List Class) → KeepsSendable table center_act }
{}

/// So does a behaviour of classes of all kinds.
///
/// Premises are that the codes of its scripts are valid, and that these and its rules have only
/// numbers and texts that a message can carry.
pub fn native_acts_keep_values_sendable()
    ensures { (b : Native) → CodesAreSendable b.program →
        AllByRecursion RulesAreSendable b.rules → (table : List Class) →
        KeepsSendable table (native_act b) }
{}

/// So does the behaviour of a world that can be opened, whose numbers have 64 bits and whose texts
/// are of bytes, as those of a program's values are. Nothing is asked of its acts.
pub fn worlds_keep_values_sendable()
    ensures { (b : Native) (table : List Class) → IsMadeFor b table →
        CodesAreRanged b.program → RulesAreRanged b.rules → KeepsSendable table (native_act b) }
{}
