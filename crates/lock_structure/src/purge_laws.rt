//! Laws of a removal at the lock words: each function's contract is one, and there is nothing to run.
ghost use Rattle.lock_structure.specs.PurgeLaws.{PurgeTakesTarget, PurgeKeepsOthers, PurgeNamesLeast, PurgeCounts, EpochsNeverFall, PurgeKeepsManaged, PurgeKeepsWord, PurgeKeepsAllManaged, PurgeKeepsNames, MovedOnce, MovedAreEntries, MovedInOrder, MovedForInterested, MovedForOthers};

/// Behind a removal those have interest who had, but not the removed system.
pub fn purge_takes_target()
    ensures { PurgeTakesTarget }
{}

/// What another system manages it still does, in the epoch that it was.
pub fn purge_keeps_others()
    ensures { PurgeKeepsOthers }
{}

/// What the removed system managed the least of the others manages that have interest.
pub fn purge_names_least()
    ensures { PurgeNamesLeast }
{}

/// Its epoch is the next.
pub fn purge_counts()
    ensures { PurgeCounts }
{}

/// No epoch falls.
pub fn epochs_never_fall()
    ensures { EpochsNeverFall }
{}

/// A removal leaves a manager exactly where somebody has interest, if there was before.
pub fn purge_keeps_managed()
    ensures { PurgeKeepsManaged }
{}

/// A word in which the removed system has no part stays as it is.
pub fn purge_keeps_word()
    ensures { PurgeKeepsWord }
{}

/// A removal leaves of each entry a manager exactly where somebody has interest.
pub fn purge_keeps_all_managed()
    ensures { PurgeKeepsAllManaged }
{}

/// Words that name some of so many systems alone do so behind a removal.
pub fn purge_keeps_names()
    ensures { PurgeKeepsNames }
{}

/// An entry is made known once, where the removed system managed it and somebody else has interest in it.
pub fn moved_once()
    ensures { MovedOnce }
{}

/// What is made known is of entries that there are.
pub fn moved_are_entries()
    ensures { MovedAreEntries }
{}

/// It goes by the entries' numbers.
pub fn moved_in_order()
    ensures { MovedInOrder }
{}

/// A system gets to know of the entries in which it has interest, and of no others.
pub fn moved_for_interested()
    ensures { MovedForInterested }
{}

/// The removed system itself gets to know of none.
pub fn moved_for_others()
    ensures { MovedForOthers }
{}
