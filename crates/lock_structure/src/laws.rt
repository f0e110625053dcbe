//! Laws of lock words: each function's contract is one, and there is nothing to run.
ghost use Rattle.lock_structure.specs.Laws.{SubmitAddsCaller, SubmitKeepsManager, LeaveTakesCaller, LeaveKeepsManager, KeptStays, ManagerIsKept, KeptHasOther, LoneIsLeft, EmptyIsManaged, SubmitKeepsManaged, LeaveKeepsManaged, WordsBegin, SubmitKeepsAllManaged, LeaveKeepsAllManaged, SubmitJoins, SubmitManages, LeaveParts, LeaveManages, KeptChangesNothing};

/// After a request those have interest who had, and the caller.
pub fn submit_adds_caller()
    ensures { SubmitAddsCaller }
{}

/// After a request the manager is the one that was, or else the caller.
pub fn submit_keeps_manager()
    ensures { SubmitKeepsManager }
{}

/// Behind a Left those have interest who had, but not the caller.
pub fn leave_takes_caller()
    ensures { LeaveTakesCaller }
{}

/// Behind a Left the caller manages no more, and any other manager still does.
pub fn leave_keeps_manager()
    ensures { LeaveKeepsManager }
{}

/// Kept is answered to a manager alone, and leaves the word.
pub fn kept_stays()
    ensures { KeptStays }
{}

/// A manager is answered Kept where another system has interest.
pub fn manager_is_kept()
    ensures { ManagerIsKept }
{}

/// Kept is answered only where another system has interest.
pub fn kept_has_other()
    ensures { KeptHasOther }
{}

/// Where no other system has interest the caller is let go, also as the manager.
pub fn lone_is_left()
    ensures { LoneIsLeft }
{}

/// A word in which nobody has interest has no manager.
pub fn empty_is_managed()
    ensures { EmptyIsManaged }
{}

/// Behind a request there is a manager exactly where somebody has interest, if there was before.
pub fn submit_keeps_managed()
    ensures { SubmitKeepsManaged }
{}

/// So there is once a system has given its interest up.
pub fn leave_keeps_managed()
    ensures { LeaveKeepsManaged }
{}

/// At the start nobody has interest in an entry, and none has a manager.
pub fn words_begin()
    ensures { WordsBegin }
{}

/// A request leaves of each entry a manager exactly where somebody has interest.
pub fn submit_keeps_all_managed()
    ensures { SubmitKeepsAllManaged }
{}

/// So does a system that gives its interest up.
pub fn leave_keeps_all_managed()
    ensures { LeaveKeepsAllManaged }
{}

/// A request gives its caller interest in its entry, and nobody else any.
pub fn submit_joins()
    ensures { SubmitJoins }
{}

/// Behind a request its entry has a manager, the caller where it had none; the other managers stay.
pub fn submit_manages()
    ensures { SubmitManages }
{}

/// A Left takes its caller's interest in its entry, and nobody else's.
pub fn leave_parts()
    ensures { LeaveParts }
{}

/// Behind a Left its entry has no manager where the caller managed it; the other managers stay.
pub fn leave_manages()
    ensures { LeaveManages }
{}

/// A Kept changes no word.
pub fn kept_changes_nothing()
    ensures { KeptChangesNothing }
{}
