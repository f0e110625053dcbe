//! Laws of analyses: each function's contract is one, and there is nothing to run.
ghost use Rattle.grs_analyze.specs.Deadlocks.{DeadlocksStay, DeadlocksAreFound};
ghost use Rattle.grs_analyze.specs.Depends.{ListsAreApart};
ghost use Rattle.grs_analyze.specs.Greatest.{GreatestIsGreatest};
ghost use Rattle.grs_analyze.specs.Waits.{EachWaiterIsTold};
ghost use Rattle.grs_analyze.specs.Walk.{AllCyclesAreReported};

/// The tasks that are left in the end each depend on one of them, and hold every set of tasks of which that is true.
pub fn greatest_is_greatest()
    ensures { GreatestIsGreatest }
{}

/// Each task of a reported cycle depends on the next, and the last on the first; and none is reported only
/// where no tasks are a cycle.
pub fn cycles_are_reported()
    ensures { AllCyclesAreReported }
{}

/// Each element that waits is told, in order and once.
pub fn each_waiter_is_told()
    ensures { EachWaiterIsTold }
{}

/// No task stands twice in a list that a history leaves, so these lists may be analyzed.
pub fn lists_are_apart()
    ensures { ListsAreApart }
{}

/// Tasks each of which is held for a resource for which it waits behind one of them stay so, and none of them asks for
/// anything, whatever comes, unless the system of one is removed.
pub fn deadlocks_stay()
    ensures { DeadlocksStay }
{}

/// Tasks each of which is held for a resource for which it waits behind one of them are all among those that an analysis of
/// the lists leaves in the end, so it reports a cycle: none is reported only where there are no such tasks.
pub fn deadlocks_are_found()
    ensures { DeadlocksAreFound }
{}
