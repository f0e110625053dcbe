//! Laws of who gets control: each function's contract is one, and there is nothing to run.
ghost use Rattle.freed_owners.specs.FreedLaws.{NewcomersBecomeOwners};

/// Between two lists the same tasks come to own by a removal as by a request, but for the request's asker.
pub fn newcomers_become_owners()
    ensures { NewcomersBecomeOwners }
{}
