//! Laws of what a manager keeps once a system is removed, and of whom it gives: each function's contract is one, and
//! there is nothing to run.
ghost use Rattle.contention_mgr.specs.LoseLaws.{LostLists, LostRanks, LosingKeepsOwners, LosingKeepsRanks, LosingKeepsUntoldOwn, LosingKeepsWell, LostUntold, GainedAreFreed, GainedInOrder, GainedOnList, LosingNothing};

/// The plain lists are those of before without the elements of the removed system's tasks.
pub fn lost_lists()
    ensures { LostLists }
{}

/// Each element that stays keeps its rank.
pub fn lost_ranks()
    ensures { LostRanks }
{}

/// Who owns and isn't of the removed system still owns.
pub fn losing_keeps_owners()
    ensures { LosingKeepsOwners }
{}

/// Where ranks rise along each list, they still do.
pub fn losing_keeps_ranks()
    ensures { LosingKeepsRanks }
{}

/// Where each who is still to be told owns by the plain lists and is of another system, so it is behind the removal.
pub fn losing_keeps_untold_own()
    ensures { LosingKeepsUntoldOwn }
{}

/// So a manager keeps all entries as well as before.
pub fn losing_keeps_well()
    ensures { LosingKeepsWell }
{}

/// Those are still to be told who were, as far as they are left, and who got control at other systems than the manager's.
pub fn lost_untold()
    ensures { LostUntold }
{}

/// A task is given exactly where it is of the manager's own system and owns now and didn't before.
pub fn gained_are_freed()
    ensures { GainedAreFreed }
{}

/// Tasks are given in the order in which their resources are shown.
pub fn gained_in_order()
    ensures { GainedInOrder }
{}

/// The tasks of a list are given in its order.
pub fn gained_on_list()
    ensures { GainedOnList }
{}

/// A system of which no element is kept is lost without a change, and nobody gets control.
pub fn losing_nothing()
    ensures { LosingNothing }
{}
