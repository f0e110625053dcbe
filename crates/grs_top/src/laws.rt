//! The laws of the commands, which follow from what each says of its source and sink, those of systems that ran beside each
//! other, and that of runs that are made from a number. There is nothing to run.
ghost use Rattle.std.specs.Prelude.{◌≡◌, All, List};
ghost use Rattle.std.specs.List.{flat_map};
ghost use Rattle.grs_deck.specs.EventLines.{SpellsEvents};
ghost use Rattle.grs_display.specs.Names.{names_of};
ghost use Rattle.grs_report.specs.Schedule.{event_line};
ghost use Rattle.grs_wire.specs.Decks.{IsEventOf, IsDeck};
ghost use Rattle.grs_wire.specs.declared.deck.Deck.{Deck};
ghost use Rattle.grs_wire.specs.declared.deck.Event.{Event};
ghost use Rattle.grs_top.specs.Beside.{MergedRuns, MergedRests};
ghost use Rattle.grs_top.specs.Generated.{LineUnlessMemory, GeneratedRuns};
ghost use Rattle.grs_top.specs.OneHistory.{AnswersShowHistories};
ghost use Rattle.grs_top.specs.OwnReports.{OwnReportsAreYes};
ghost use Rattle.grs_top.specs.Replayed.{RunsAreReplayed};
ghost use Rattle.grs_top.specs.Schedules.{DoersAreOfDeck, SchedulesReadBack};
ghost use Rattle.grs_top.specs.Unread.{ScheduleIsUnread};
ghost use Rattle.grs_top.specs.Whole.{WholeUnlessMemory, RefusedUnlessMemory, FaultsAreFailedCalls};

use grs_audit::reports_are_yes;
use grs_deck::one_deck;
use grs_gen::laws::are_decks;
use grs_world::laws::{
    decks_without_removals_are_spared, runs_are_sound, spared_runs_take_no_entries,
};
use latch_form::one_list_of_calls;

/// A source whose bytes spell what the command reads is answered by the whole text of the command, unless a read or write
/// fails or memory is wanted.
pub fn whole_unless_memory()
    ensures { WholeUnlessMemory }
{
    one_deck();
    one_list_of_calls();
}

/// A source whose bytes have a fault is answered by the line of the first one, unless a read or write fails or memory is wanted.
pub fn refused_unless_memory()
    ensures { RefusedUnlessMemory }
{
    one_deck();
    one_list_of_calls();
}

/// Where no read and no write fails, neither status of a failed call comes: so never over `SureSource` and `SureSink`.
pub fn faults_are_failed_calls()
    ensures { FaultsAreFailedCalls }
{}

/// A text that is answered by the report of a run, by `replay`, `run` or `stop`, is answered by one that shows one history of the
/// deck that it spells: a legal one, with which each line that is told agrees. It is so where that run removes no system in star mode
/// that manages a lock entry, and none there before all live ones have changed.
pub fn answers_show_histories()
    ensures { AnswersShowHistories }
{}

/// The events of systems that ran beside each other, in the order of the journal of their calls, are a run, in which each has
/// something to do: it leads to their medium and to the systems as they are, has the history of the merged logs, and tells the lines
/// that they tell.
pub fn merged_runs()
    ensures { MergedRuns }
{}

/// Where each of the systems, of which there is one at least, ends with a call that is answered that all have come to rest, or that the
/// system was removed, that run ends at rest.
#[tactic(auto, using(crate::proofs::at_rest::Merged::merged_rests))]
pub fn merged_rests()
    ensures { MergedRests }
{}

/// Each event that has something to do where it stands in a run of a deck is one of the deck's: it is of a system of the deck, a task of it
/// or a lock entry is one that there is, and a system is removed by another.
#[tactic(auto, using(crate::proofs::Doers::doers_of_deck))]
pub fn doers_are_of_deck()
    ensures { DoersAreOfDeck }
{}

/// The printed lines of events of a deck spell these events, one each, and no others.
pub fn printed_events()
    ensures again { (deck : Deck) (es : List Event) → IsDeck deck → All (IsEventOf deck.systems deck.entries) es → SpellsEvents deck.systems deck.entries (flat_map (event_line (names_of deck)) es) es }
    ensures only { (deck : Deck) (es fs : List Event) → IsDeck deck → All (IsEventOf deck.systems deck.entries) es → SpellsEvents deck.systems deck.entries (flat_map (event_line (names_of deck)) es) fs → es ≡ fs }
{}

/// A deck's text up to its events, with the printed lines of events of the deck behind it, spells the deck with these events, where it
/// isn't too long.
pub fn schedules_read_back()
    ensures { SchedulesReadBack }
{
    one_deck();
    printed_events();
}

/// A deck's own schedule is read by nobody but who takes its events: with it and without it a deck has one run of any events, one
/// report and one ending, the run is sound for both or for neither, the same histories are legal, and a text shows one history of
/// both or of neither.
pub fn schedules_are_unread()
    ensures { (deck : Deck) → (events : List Event) → ScheduleIsUnread deck events }
{}

/// A deck's text whose last line has its end, and which has no line that begins a report, with what `replay`, `run` or `stop`
/// wrote for it behind it, is answered Yes by `audit`, where both aren't too long together, and the run removes no system in
/// star mode that manages a lock entry, and none there before all live ones have changed.
pub fn own_reports_are_yes()
    ensures { OwnReportsAreYes }
{
    one_deck();
    doers_are_of_deck();
    reports_are_yes();
}

/// What `run` wrote for a deck has the schedule of its run, and `replay` of the deck with these lines in place of its own schedule
/// writes the same bytes and ends by the same status, where that text isn't too long.
pub fn runs_are_replayed()
    ensures { RunsAreReplayed }
{
    one_deck();
    doers_are_of_deck();
    schedules_read_back();
}

/// A sink is given the whole line of a number, unless a write fails or memory is wanted.
pub fn line_unless_memory()
    ensures { LineUnlessMemory }
{}

/// The rounds of the deck of a number are a run of this deck, a sound one, which is made until the world is at rest, unless 20,000
/// rounds were made.
pub fn generated_runs()
    ensures { GeneratedRuns }
{
    are_decks();
    runs_are_sound();
    decks_without_removals_are_spared();
    spared_runs_take_no_entries();
}
