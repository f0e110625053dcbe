//! The laws of a run: each function's contract is one, and there is nothing to run.
ghost use Rattle.std.specs.Prelude.{◌≡◌, true, false, length, List};
ghost use Rattle.grs_wire.specs.Decks.{IsBounded, AreOrders};
ghost use Rattle.grs_wire.specs.declared.deck.Deck.{Deck};
ghost use Rattle.grs_wire.specs.declared.deck.Event.{Event};
ghost use Rattle.grs_world.specs.Again.{NoticesSendAgain, SentStays};
ghost use Rattle.grs_world.specs.Agree.{Sound, RemovedTellNothing};
ghost use Rattle.grs_world.specs.AtRest.{RestsInTheEnd};
ghost use Rattle.grs_world.specs.Changing.{ChangesFixNothing};
ghost use Rattle.grs_world.specs.Fixing.{EventFixes};
ghost use Rattle.grs_world.specs.Gone.{KnownAreGone, ActsWithoutGone};
ghost use Rattle.grs_world.specs.InHands.{AnswersAreNoticed, ControlComesFirst, RequestsSettleOnce};
ghost use Rattle.grs_world.specs.InStar.{NoneInStar, NoneTakesEntries};
ghost use Rattle.grs_world.specs.Interest.{WordsAreManaged, WordsGoWithSystems};
ghost use Rattle.grs_world.specs.Kept.{KeptArePlaces, KeptArePlacesThen, ManagersKeepWell, ShownArePlaces, ShownHaveRanks};
ghost use Rattle.grs_world.specs.Laps.{ComesBackLast, ProcessedLast, AnsweredLast};
ghost use Rattle.grs_world.specs.Noticed.{NoticesName};
ghost use Rattle.grs_world.specs.OnTheWay.{PartsAreOnTheWay, RolesGoByWords};
ghost use Rattle.grs_world.specs.Passed.{PassedIsTold};
ghost use Rattle.grs_world.specs.Removing.{RemovedAreInHistory, AnswersHaveCauses, RemovalsAreEntries, NoneFollows, RemovalsKeepOthers, MessageGoesOn};
ghost use Rattle.grs_world.specs.Stopped.{LapsEnd};
ghost use Rattle.grs_world.specs.Tables.{TablesAreFronts};
ghost use Rattle.grs_world.specs.Decks.{FitsStar, may_be_star, may_remove};
ghost use Rattle.grs_world.specs.World.{run};

/// Every spared run is sound, in ring mode and in star mode and where it changes from the one to the other, at whatever
/// event: its history is legal, and what is told agrees with it, by systems that weren't removed. A run is spared
/// (`NoneTakesEntries`) that removes whichever systems in ring mode, and in star mode none but such as another system
/// removes, that manage no lock entry, once all live ones have changed. Those may have elements, and whatever their tasks
/// asked may be under way, held or settled; the others get to know of the removal at any later event. Of a deck whose
/// runs may be in star mode it needs the bounds of systems and lock entries, and of each deck that no desk commands the
/// removal of its own system, or of one that isn't there.
pub fn runs_are_sound()
    ensures { (deck : Deck) → (may_be_star deck ≡ true → FitsStar deck) → AreOrders (length deck.systems) 0 deck.systems → (events : List Event) → NoneTakesEntries deck events → Sound deck events }
{}

/// A deck that neither begins in star mode nor has a desk that orders the change to it is never in that mode, so no run of it
/// removes a system there: whichever systems it loses, what is said of runs that remove none in star mode holds of its runs.
pub fn decks_without_star_are_spared()
    ensures { (deck : Deck) → may_be_star deck ≡ false → (events : List Event) → NoneInStar deck events }
{}

/// Nor does any run of a deck remove one there of which no desk orders a removal.
pub fn decks_without_removals_are_spared()
    ensures { (deck : Deck) → may_remove deck ≡ false → (events : List Event) → NoneInStar deck events }
{}

/// And a run that removes no system in star mode is spared.
pub fn spared_runs_take_no_entries()
    ensures { (deck : Deck) → (events : List Event) → NoneInStar deck events → NoneTakesEntries deck events }
{}

/// In every spared run of such a deck what is kept of each Systems resource is the list that the history leads to, though
/// a manager that doesn't know of a removal yet still has that one's elements. In ring mode each live system keeps it:
/// its table has that list once the entries that it hasn't seen are processed. In star mode the manager of the resource's
/// lock entry does, in its table as long as it hasn't changed; where there is none, the history has nothing on the
/// resource. What is kept behind the removal of a manager, as long as the lists of its entries have still to be gathered,
/// `kept` says too. That it is the history's list is a law right behind the event of a run's first removal in star mode,
/// of a manager or not, once all live systems have changed; behind later events of a run that isn't spared worked runs
/// alone show it so far.
pub fn kept_are_places()
    ensures { (deck : Deck) → (may_be_star deck ≡ true → FitsStar deck) → (events : List Event) → NoneTakesEntries deck events → KeptArePlaces deck events }
{}

/// Once a spared run of a deck is in star mode the live systems show together what is kept: once each has changed and
/// taken the mail of its inbox, what their tasks have on record of a Systems resource is, by its ranks, the list that the
/// history leads to. As long as the run has removed no system in star mode, these ranks are those that the resource's
/// manager keeps, one by one; they rise, so that no two are equal. The deck needs the bounds of a deck that was read: an
/// answer with a rank past the last number has no effect.
pub fn shown_are_places()
    ensures places { (deck : Deck) → IsBounded deck → (events : List Event) → NoneTakesEntries deck events → (run deck events).medium.star ≡ true → ShownArePlaces deck events }
    ensures ranks { (deck : Deck) → IsBounded deck → (events : List Event) → NoneInStar deck events → (run deck events).medium.star ≡ true → ShownHaveRanks deck events }
{}

/// Nor does the event of the first removal of a system in star mode take anything else from what is kept than that system's
/// elements, where all live systems had changed: right behind it what is kept of each Systems resource is the list that the
/// history leads to, and where the removed system managed the resource's lock entry, that is what the live systems show
/// together. Of the events behind it nothing is said. The deck needs the bounds of a deck that was read.
pub fn first_removal_keeps_places()
    ensures { (deck : Deck) → IsBounded deck → (events : List Event) → NoneInStar deck events → (run deck events).medium.message.still ≡ 0 → (next : Event) → KeptArePlacesThen deck events next }
{}

/// The change to star mode fixes nothing: neither does a Switch, nor an event by which its system changes. So no owner's and no
/// waiter's place changes by it.
pub fn changes_fix_nothing()
    ensures { (deck : Deck) → (events : List Event) → (next : Event) → ChangesFixNothing deck events next }
{}

/// What an event adds to what was fixed, by its choice and the reply to its call: a Turn the requests that it put in, a
/// Send that its own system is to answer, as the manager, what its task asks for, a Settle the first request that is held
/// of an entry that isn't gathered, a removal itself, and any other choice or reply nothing. Without a call a task that goes
/// on fixes what it asks of its system alone: the request of its ENQ or DEQ, or of the release with which it ends, for a
/// resource that isn't one of the whole complex, or the look of its line at that system's lists. An event of a system that
/// isn't there, or was removed, fixes nothing.
pub fn what_events_fix()
    ensures { (deck : Deck) → (events : List Event) → (next : Event) → EventFixes deck events next }
{}

/// In every spared run of such a deck the table that each live system keeps of the Systems resources, as long as it
/// hasn't changed to star mode, is that of a front of the history: of what was fixed before the first entry of the
/// message that the system has still to process.
pub fn tables_are_fronts()
    ensures { (deck : Deck) → (may_be_star deck ≡ true → FitsStar deck) → (events : List Event) → NoneTakesEntries deck events → TablesAreFronts deck events }
{}

/// Wherever a run is in star mode, a lock word names a manager exactly where its set isn't empty, who is in it. And
/// wherever a spared run is, the words go with the systems: the set of an entry's word holds a system exactly where that
/// system is live and has interest in the entry, and it names a system as the manager exactly where that system is live
/// and manages the entry. A system that hasn't changed has interest in what its table leads to, and manages that, once it
/// has processed what it hasn't seen.
pub fn words_go_with_systems()
    ensures managed { (deck : Deck) → (may_be_star deck ≡ true → FitsStar deck) → (events : List Event) → (run deck events).medium.star ≡ true → WordsAreManaged deck events }
    ensures systems { (deck : Deck) → (may_be_star deck ≡ true → FitsStar deck) → (events : List Event) → NoneTakesEntries deck events → (run deck events).medium.star ≡ true → WordsGoWithSystems deck events }
{}

/// In every spared run of such a deck each system that is in star mode keeps well what it manages: ranks rise along the
/// list of each resource, so that what is kept of it is in the order of ranks; and each owner that is still to be told
/// owns and is of another system.
pub fn managers_keep_well()
    ensures { (deck : Deck) → (may_be_star deck ≡ true → FitsStar deck) → (events : List Event) → NoneTakesEntries deck events → ManagersKeepWell deck events }
{}

/// In every run of a deck that begins in ring mode a request of the message comes back last: where the message stands at the
/// system that put it in, no other system has still to process it.
pub fn requests_come_back_last()
    ensures { ComesBackLast }
{}

/// So an answer comes last. In every run of such a deck, where the next event gives a system a request that this system put
/// in, which is then answered, no other system has still to process it; and by the event that tells a task an answer, no
/// other system has still to process a request of that task that stands in the message before that event or behind it.
pub fn answers_come_last()
    ensures given { (deck : Deck) → deck.star ≡ false → (events : List Event) (next : Event) → ProcessedLast deck events next }
    ensures told { (deck : Deck) → deck.star ≡ false → (may_be_star deck ≡ true → FitsStar deck) → (events : List Event) (next : Event) → AnsweredLast deck events next }
{}

/// In every spared run of such a deck nothing that is passed is left untold, of whichever system and whatever the others
/// do: each line that a task has passed has its code line, a WAIT and what waited too, or its rows; who has ended has its
/// END line; and each line of a desk that is done is told there.
pub fn passed_is_told()
    ensures { (deck : Deck) → (may_be_star deck ≡ true → FitsStar deck) → AreOrders (length deck.systems) 0 deck.systems → (events : List Event) → NoneTakesEntries deck events → PassedIsTold deck events }
{}

/// Where a spared run of a deck within the bounds ends at rest, in ring mode or in star mode, nothing is lost on the live
/// systems: each of their tasks that owns a resource was told control of it, each of these tasks' ENQs and DEQs that
/// wasn't answered WAIT has its code line, and each display whose looks all stand its rows; a task of theirs that hasn't
/// ended is shown to wait and has an element that it doesn't own, for which its last entry waits or the WAIT line at
/// which it stands; and each of their units is reserved as often as their tasks own a resource on which a RESERVE of the
/// unit queued them.
pub fn rests_in_the_end()
    ensures { (deck : Deck) → IsBounded deck → (events : List Event) → NoneTakesEntries deck events → RestsInTheEnd deck events }
{}

/// In every run the removed systems are those of which the history has the removal.
pub fn removed_are_in_history()
    ensures { (deck : Deck) → (events : List Event) → RemovedAreInHistory deck events }
{}

/// When an event is answered what has to do with removals. A removed system's events do nothing. A system is told which were
/// removed exactly where its call doesn't know it; and that there is no such system exactly where the history has its removal.
pub fn answers_have_causes()
    ensures { (deck : Deck) → AreOrders (length deck.systems) 0 deck.systems → (events : List Event) (next : Event) → AnswersHaveCauses deck events next }
{}

/// A removal is one entry of the history, at the event that makes it: what stands before it keeps its replies.
pub fn removals_are_entries()
    ensures { (deck : Deck) → (events : List Event) (next : Event) → RemovalsAreEntries deck events next }
{}

/// No entry of a task of the removed system stands behind the removal, in either mode.
pub fn none_follows_its_removal()
    ensures { (deck : Deck) → (may_be_star deck ≡ true → FitsStar deck) → AreOrders (length deck.systems) 0 deck.systems → (events : List Event) → NoneFollows deck events }
{}

/// In every run, whichever systems are removed, a system in star mode keeps nothing of one that it knows to be removed: no
/// element of its tasks in the lists that it manages, none of their requests, and of no lock entry whose lists it gathers
/// a part of it, or the wait for one. So neither does a system of any removed one by whose call, which isn't refused, an
/// event is made: it knows all of them.
pub fn nothing_is_kept_of_removed()
    ensures known { (deck : Deck) → AreOrders (length deck.systems) 0 deck.systems → (events : List Event) → KnownAreGone deck events }
    ensures acting { (deck : Deck) → AreOrders (length deck.systems) 0 deck.systems → (events : List Event) (next : Event) → ActsWithoutGone deck events next }
{}

/// In every run of a deck that begins in star mode and fits it, whichever systems are removed, the notices in a live
/// system's inbox name the managers of lock entries: of those that name an entry the last one names the manager that the
/// entry's word names, each other one a system that was removed. And the entry's set holds whose inbox it is.
pub fn notices_name_managers()
    ensures { (deck : Deck) → deck.star ≡ true → FitsStar deck → (events : List Event) → NoticesName deck events }
{}

/// In every run of a deck that begins in star mode and fits it, whichever systems are removed, each live system has the role
/// that the entry's word gives it: who is named manages the entry, gathers its lists, or has still to take the notice that says
/// so, and nobody else manages or gathers it. And as long as the one who is named has still to gather the lists, the part of
/// each other live system is in one place: that system has still to take the notice, owes the part, or sent it, so that it is
/// under way; or it came and is kept; or there is none. It is awaited just in the first three of these. Once the lists are
/// managed, nothing of them has still to be taken, is owed or under way.
pub fn parts_are_on_the_way()
    ensures roles { (deck : Deck) → deck.star ≡ true → FitsStar deck → (events : List Event) → RolesGoByWords deck events }
    ensures parts { (deck : Deck) → deck.star ≡ true → FitsStar deck → (events : List Event) → PartsAreOnTheWay deck events }
{}

/// In every run, by an event in which a system in star mode takes a notice of a system of the deck, a task that has sent its
/// request, which isn't answered yet, is to send it again exactly where the notice names, in an item that the deck has, the
/// request's lock entry, and its system neither manages nor gathers that; of any other task that has sent one the request is
/// still sent.
pub fn notices_send_again()
    ensures { (deck : Deck) → (events : List Event) (next : Event) → NoticesSendAgain deck events next }
{}

/// At a system in star mode, a task that has sent its request, which isn't answered yet, stays so and asks the same by every
/// event of that system that takes neither a notice nor an answer to a task of its place.
pub fn sent_requests_stay()
    ensures { (deck : Deck) → (events : List Event) (next : Event) → SentStays deck events next }
{}

/// In every run of a deck that begins in star mode and fits it, whichever systems are removed, each request in the hands of a
/// live system, held or in its inbox, is what its task has sent and isn't answered, if the task's system is live. It is of an
/// entry that the system manages by its word, and in which the task's system has interest; it is the only one there of that
/// task; and in the inbox of the task's system are no answer to the task and no notice of the entry. Each answer in a live
/// system's inbox is to what the task at its place has sent; it is the only one to that task, and no notice of the entry stands
/// in front of it. So what a notice makes a task send again is in no live system's hands, and no answer to it is still to be taken.
pub fn requests_settle_once()
    ensures { (deck : Deck) → deck.star ≡ true → FitsStar deck → (events : List Event) → RequestsSettleOnce deck events }
{}

/// In every such run, as long as the manager of an entry, by its word, is live and doesn't manage the entry yet, a notice of it
/// is in each live system's inbox that has an answer to a request of the entry: behind that answer, as `requests_settle_once`
/// has it.
pub fn answers_come_first()
    ensures { (deck : Deck) → deck.star ≡ true → FitsStar deck → (events : List Event) → AnswersAreNoticed deck events }
{}

/// In every such run no task is told control behind the notices. As long as a second system is live, one that has a notice of
/// an entry to take, or owes its part of it, or whose part is under way to that second system or kept there, has no mail that
/// tells a task control of a resource of the entry but in front of a notice of the entry.
pub fn control_comes_first()
    ensures { (deck : Deck) → deck.star ≡ true → FitsStar deck → (events : List Event) → ControlComesFirst deck events }
{}

/// No line is told by a system that was removed before that event, to a task or at its desk.
pub fn removed_tell_nothing()
    ensures { (deck : Deck) → (events : List Event) → RemovedTellNothing deck events }
{}

/// By a removal who owns and isn't of that system still owns, and who waits keeps the order: of each list of the whole complex
/// the elements of the removed system's tasks leave, and of no other list any.
pub fn removals_keep_others()
    ensures { (deck : Deck) → (events : List Event) (next : Event) → RemovalsKeepOthers deck events next }
{}

/// The message waits for no removed system: no entry has still to go to one, and in ring mode, where some system is live, the
/// message stands at a live one.
pub fn message_goes_on()
    ensures { (deck : Deck) → (events : List Event) → MessageGoesOn deck events }
{}

/// A lap of the message ends. In ring mode, where some system is live, its events are Turns, each of the system at which the
/// message stands; as many of them get to the message as systems are live; and none of the entries that stood in the message
/// before is left behind it, whatever removed systems have left undone.
pub fn laps_end()
    ensures { (deck : Deck) → (events : List Event) → LapsEnd deck events }
{}
