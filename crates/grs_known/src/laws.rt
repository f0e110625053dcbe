//! Each function's contract is one law, and there is nothing to run.
ghost use Rattle.grs_known.specs.Parts.{TableIsPart};
ghost use Rattle.grs_known.specs.Past.{ElementsAreOfItems, PastGrows, PastSpeaks, PastSpeaksOf, ReplyFits};
ghost use Rattle.grs_known.specs.Reading.{TableAnswers, OwnersStayOn, ReadingIsRight};
ghost use Rattle.grs_known.specs.Laws.{ItemsAreHistory, RepliesAreAnswers, ListsAreReplayed, EntriesAreOfItems, OthersKeep, DecidedAtOnce, AnswerIsSent, AnswerIsLearned, ControlIsLearned, ControlIsSent, ReadInOrder, AllIsKnown, FrontOwnersStay};

/// The history of what was fixed is the entries of its items, and each stands as the plain lists give it.
pub fn items_are_history()
    ensures { ItemsAreHistory }
{}

/// The reply in a request's entries is what the plain lists answer.
pub fn replies_are_answers()
    ensures { RepliesAreAnswers }
{}

/// The lists after items are those to which their history leads.
pub fn lists_are_replayed()
    ensures { ListsAreReplayed }
{}

/// A task's entries are those of its items.
pub fn entries_are_of_items()
    ensures { EntriesAreOfItems }
{}

/// An item of another task leaves what is known of a task right, and what comes.
pub fn others_keep()
    ensures { OthersKeep }
{}

/// Of an item that another system fixes for a task, the answer may come last.
pub fn answer_is_sent()
    ensures { AnswerIsSent }
{}

/// An item that a task's own system decides at once is learned with it.
pub fn decided_at_once()
    ensures { DecidedAtOnce }
{}

/// An answer that comes is the reply in the task's outstanding item, and leaves what is known right.
pub fn answer_is_learned()
    ensures { AnswerIsLearned }
{}

/// Control that comes is still there, and leaves what is known right.
pub fn control_is_learned()
    ensures { ControlIsLearned }
{}

/// Control that is still there once all before it was read may come last.
pub fn control_is_sent()
    ensures { ControlIsSent }
{}

/// What comes may be read front by front.
pub fn read_in_order()
    ensures { ReadInOrder }
{}

/// Where nothing is outstanding all of a task is known, and what it owns by that it owns by the lists.
pub fn all_is_known()
    ensures { AllIsKnown }
{}

/// An owner by a front of the items, behind which its task has at most one, is still one by all.
pub fn front_owners_stay()
    ensures { FrontOwnersStay }
{}

/// A task's elements are those which its items queued, by their replies.
pub fn elements_are_of_items()
    ensures { ElementsAreOfItems }
{}

/// Learning an item makes the past of its task longer by the item's entries.
pub fn past_grows()
    ensures { PastGrows }
{}

/// The reply in the outstanding item fits the past by what is known.
pub fn reply_fits()
    ensures { ReplyFits }
{}

/// Where nothing is outstanding the past by what is known is that of the history.
pub fn past_speaks()
    ensures { PastSpeaks }
{}

/// Of a resource that the outstanding item doesn't give up, what the past owns is owned by the history's lists.
pub fn past_speaks_of()
    ensures { PastSpeaksOf }
{}

/// The items that went with the message lead to the history's part on resources of the whole complex.
pub fn table_is_part()
    ensures { TableIsPart }
{}

/// The table of a system in the ring answers a request as the history does.
pub fn table_answers()
    ensures { TableAnswers }
{}

/// An owner by a front is still one by all items, though its system decided some of its own items since.
pub fn owners_stay_on()
    ensures { OwnersStayOn }
{}

/// What a system in the ring knows of a task stays right when it processes a request of the message by its table.
pub fn reading_is_right()
    ensures { ReadingIsRight }
{}
