//! Laws of a system: each function's contract is one, and there is nothing to run.
ghost use Rattle.grs_node.specs.Finish.{UnjournalledLeaves, RepliesLeave};

/// Where a call that has no entry in the journal is finished, the system stays as it was, its log too.
pub fn unjournalled_leaves()
    ensures { UnjournalledLeaves }
{}

/// A reply that leaves the system as it is needs no finish: nothing changes by it, and nothing is fixed.
pub fn replies_leave()
    ensures { RepliesLeave }
{}
