//! Laws of the medium: each function's contract is one, and there is nothing to run.
ghost use Rattle.grs_medium.specs.Causes.{RepliesAreListed, RemovedComes, StaleComes, NotYoursComes, AlreadyComes, BehindComes, SwitchedComes, PurgedComes, YoursComes, OldComes, NoSuchComes, OverComes, RestingComes, SoleComes, SentComes, TakenComes, EmptyComes, SettledComes, ToldComes, KeptComes, LeftComes};
ghost use Rattle.grs_medium.specs.Changes.{LeavesTheRest, ChangesWhatItSays};
ghost use Rattle.grs_medium.specs.Removals.{RemovalIsNoticed, RemovalKeepsMail, RemovalEmptiesInbox, RemovalWakes};
ghost use Rattle.grs_medium.specs.TurnReplies.{TurnIsRefused, TurnIsServed};
ghost use Rattle.grs_medium.specs.TakeReplies.{TakeFindsNothing};

/// A call that isn't said to change the medium leaves it as it was.
pub fn leaves_the_rest()
    ensures { LeavesTheRest }
{}

/// A call that is said to change the medium changes it, if its lock entry and the inbox that it mails to are there.
pub fn changes_what_it_says()
    ensures { ChangesWhatItSays }
{}

/// Each call is answered by one of the replies that are listed for what it asks, so a system may be finished with it.
pub fn replies_are_listed()
    ensures { RepliesAreListed }
{}

/// A caller is answered Removed exactly where it was removed.
pub fn removed_comes()
    ensures { RemovedComes }
{}

/// A call is answered Stale exactly where its caller was not removed and doesn't know the removed systems, with
/// these.
pub fn stale_comes()
    ensures { StaleComes }
{}

/// A call that is heard is answered NotYours exactly where it is a Turn and the message isn't at its caller, with
/// where it is.
pub fn not_yours_comes()
    ensures { NotYoursComes }
{}

/// A call that is heard is answered Already exactly where it is a Switch in star mode.
pub fn already_comes()
    ensures { AlreadyComes }
{}

/// A call that is heard is answered Behind exactly where it is a Switch in ring mode and its caller has yet to process
/// an entry, with the number of the first.
pub fn behind_comes()
    ensures { BehindComes }
{}

/// A call that is heard is answered Switched exactly where it is a Switch in ring mode and its caller has processed
/// every entry.
pub fn switched_comes()
    ensures { SwitchedComes }
{}

/// A call that is heard is answered Purged exactly where it is a Purge of a live system.
pub fn purged_comes()
    ensures { PurgedComes }
{}

/// A call that is heard is answered NoSuch exactly where it is a Purge of a system that was removed, or of none.
pub fn no_such_comes()
    ensures { NoSuchComes }
{}

/// A call that is heard is answered Over exactly where it is a Rest with which all systems that aren't removed are
/// at rest, and nothing is left to do.
pub fn over_comes()
    ensures { OverComes }
{}

/// A call that is heard is answered Resting exactly where it is any other Rest.
pub fn resting_comes()
    ensures { RestingComes }
{}

/// A call that is heard is answered Yours exactly where it is a Submit or a Leave of a lock entry that a notice in its
/// caller's inbox names, and that its caller manages.
pub fn yours_comes()
    ensures { YoursComes }
{}

/// A call that is heard is answered Old exactly where it is a Submit or a Leave of a lock entry that a notice in its
/// caller's inbox names, and that its caller doesn't manage.
pub fn old_comes()
    ensures { OldComes }
{}

/// A call that is heard is answered Sole exactly where it is a Submit on a lock entry that its caller manages, or
/// nobody, and no notice in its caller's inbox names.
pub fn sole_comes()
    ensures { SoleComes }
{}

/// A call that is heard is answered Sent exactly where it is a Submit on a lock entry that another system manages, and no
/// notice in its caller's inbox names.
pub fn sent_comes()
    ensures { SentComes }
{}

/// A call that is heard is answered Taken exactly where it is a Take and its caller's inbox isn't empty, with the
/// first mail.
pub fn taken_comes()
    ensures { TakenComes }
{}

/// A call that is heard is answered Empty exactly where it is a Take and its caller's inbox is empty.
pub fn empty_comes()
    ensures { EmptyComes }
{}

/// A call that is heard is answered Settled exactly where it is a Settle.
pub fn settled_comes()
    ensures { SettledComes }
{}

/// A call that is heard is answered Told exactly where it is a Tell.
pub fn told_comes()
    ensures { ToldComes }
{}

/// A call that is heard is answered Kept exactly where it is a Leave of a lock entry that its caller manages, and
/// others have interest as well, and no notice in its caller's inbox names, with the set of all that have.
pub fn kept_comes()
    ensures { KeptComes }
{}

/// A call that is heard is answered Left exactly where it is any other Leave of an entry that no notice in its caller's
/// inbox names.
pub fn left_comes()
    ensures { LeftComes }
{}

/// What a Turn is said to be answered that doesn't get to the message is what it is answered, whatever it would put in,
/// and then nothing changes. Any other Turn is answered with its caller's unseen entries.
pub fn turn_refusals_are_answers()
    ensures refused { TurnIsRefused }
    ensures served { TurnIsServed }
{}

/// A Take that is said to find an empty inbox is answered Empty, and changes nothing.
pub fn empty_takes_are_answers()
    ensures { TakeFindsNothing }
{}

/// Behind a removal in star mode a notice in the inbox of any other system names a lock entry where one did before, and where
/// the removed system managed the entry and the other has interest in it.
pub fn removal_is_noticed()
    ensures { RemovalIsNoticed }
{}

/// Its other mail stays in front, and one mail at most is behind it.
pub fn removal_keeps_mail()
    ensures { RemovalKeepsMail }
{}

/// The inbox of the removed system is empty.
pub fn removal_empties_inbox()
    ensures { RemovalEmptiesInbox }
{}

/// The flags of rest are cleared of all systems that are live then, and of no other.
pub fn removal_wakes()
    ensures { RemovalWakes }
{}
