//! Laws of the plain lists: each function's contract is one, and there is nothing to run.
ghost use Rattle.grs_wire.specs.Laws.{KeepsOtherLists, StepsByLists, KeepsOwners, NoneTwice};

/// A request changes no list but its own resource's, and a removal none but those of Systems resources.
pub fn keeps_other_lists()
    ensures { KeepsOtherLists }
{}

/// What an entry of a history makes of a list is what the tables of ENQ, DEQ, release and removal say of that list
/// alone.
pub fn steps_by_lists()
    ensures { StepsByLists }
{}

/// An owner stays one after the entry of another task, unless the owner's system is removed.
pub fn keeps_owners()
    ensures { KeepsOwners }
{}

/// No task ever stands twice in a list.
pub fn none_twice()
    ensures { NoneTwice }
{}
