//! Laws of an entry that is made of gathered records: each function's contract is one, and there is nothing to run.
ghost use Rattle.contention_mgr.specs.InstallLaws.{InstalledLists, InstalledUntold, InstalledAreWellKept};

/// The plain lists of the entry are those of the records.
pub fn installed_lists()
    ensures { InstalledLists }
{}

/// Those are still to be told who own, are of other systems, and weren't told by their records.
pub fn installed_untold()
    ensures { InstalledUntold }
{}

/// Ranks rise in the entry, and each who is still to be told owns and is of another system.
pub fn installed_are_well_kept()
    ensures { InstalledAreWellKept }
{}
