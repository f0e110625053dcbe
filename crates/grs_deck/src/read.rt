//! Reads a deck, statement by statement, up to its first fault.
ghost use Rattle.std.specs.Prelude.{◌≡◌, ◌||◌, true, OnOk, IfOk, IfSome, IfNone, Some, None};
ghost use Rattle.grs_base.specs.NameLists.{AreLists};
ghost use Rattle.deck_scan.specs.Gives.{Gives, IsOkUnlessMemory};
ghost use Rattle.deck_scan.specs.Rows.{Next};
ghost use Rattle.grs_deck.specs.Judge.{verdict};
ghost use Rattle.grs_deck.specs.Grow.{is_schedule, line_count, display_count, grow};
ghost use Rattle.grs_wire.specs.declared.deck.Deck.{Deck as DeckValue};
ghost use Rattle.grs_wire.specs.Decks.{Fits, IsDeck};
ghost use Rattle.grs_deck.specs.Spells.{SpellsDeck};
ghost use Rattle.grs_deck.specs.Faults.{Answers};
ghost use Rattle.grs_deck.specs.Places.{event_in, place_in};
ghost use Rattle.grs_deck.specs.Reading.{judge_statement, judge, judge_all, ended, reading, Took, TookNext, no_draft};

use crate::defaults::{DEFAULT_ENTRIES, DEFAULT_LIMIT};
use crate::grow::grow_deck;
use crate::judge::{Draft, shows, verdict};
use crate::places::{event_in, place_in};
use deck_form::{Statements, Stmt, SystemNames, plain_statement, statement};
use deck_scan::{Lines, PlainLine, TokenLine, refused};
use grs_base::{Kind, List, Lists, MOST_LINES, NoMemory, ReadError};
use grs_wire::{Deck, Event};
use std::alloc::Global;

/// The most task lines of a deck that show something.
const MOST_DISPLAYS: u32 = 256;

fn is_schedule(st: &Stmt<'_>) -> bool
    ensures { result ≡ is_schedule st.now }
{
    match st {
        Stmt::Schedule => true,
        _ => false,
    }
}

/// How many task lines a statement is.
fn line_count(st: &Stmt<'_>) -> u32
    ensures { result ≡ line_count st.now }
{
    match st {
        Stmt::Line(_) => 1,
        _ => 0,
    }
}

/// How many task lines that show something a statement is.
fn display_count(st: &Stmt<'_>) -> u32
    ensures { result ≡ display_count st.now }
{
    match st {
        Stmt::Line(line_ask) if shows(line_ask) => 1,
        _ => 0,
    }
}

/// Adds what a statement without a fault says, where `event` is the event that it is, and a name that its command says has
/// this place.
fn grow(
    draft: &mut Draft<'_>,
    alloc: Global,
    st: &Stmt<'_>,
    event: Option<Event>,
    place: Option<usize>,
) -> Result<(), NoMemory>
    requires right { verdict draft.old st.now ≡ None }
    requires systems { Fits draft.old.deck.systems }
    requires lists { AreLists draft.old.deck.lists }
    requires event { event ≡ event_in draft.old.deck.systems st.now }
    requires place { place ≡ place_in draft.old.names st.now }
    ensures { OnOk result (draft.new ≡ grow draft.old st.now) }
{
    draft.begun = true;
    draft.scheduled = draft.scheduled || is_schedule(st);
    draft.room = draft.room.saturating_sub(line_count(st));
    draft.displays = draft.displays.saturating_sub(display_count(st));
    grow_deck(&mut draft.deck, alloc, st, event, place)
}

/// Takes a statement of the right form. The event that it is, if it is one, and the name that its command says, if it says
/// one, are looked up once.
fn take_statement(
    draft: &mut Draft<'_>,
    alloc: Global,
    at: u32,
    st: &Stmt<'_>,
) -> Result<(), ReadError>
    requires systems { Fits draft.old.deck.systems }
    requires lists { AreLists draft.old.deck.lists }
    ensures { Took result draft.new (judge_statement draft.old at st.now) }
{
    let event = event_in(draft.deck.systems.as_slice(), st);
    let place = place_in(&mut draft.names, alloc, st)?;
    match verdict(draft, st, event, place) {
        Some(kind) => Err(refused(at, kind)),
        None => {
            grow(draft, alloc, st, event, place)?;
            Ok(())
        }
    }
}

/// Takes a line.
#[tactic(auto, unfolding(crate::specs::Reading::judge))]
fn take_line(draft: &mut Draft<'_>, alloc: Global, line: &TokenLine<'_>) -> Result<(), ReadError>
    requires systems { Fits draft.old.deck.systems }
    requires lists { AreLists draft.old.deck.lists }
    ensures { Took result draft.new (judge draft.old line.now) }
{
    match statement(draft.scheduled, draft.deck.entries, line) {
        Err(kind) => Err(refused(line.at, kind)),
        Ok(st) => take_statement(draft, alloc, line.at, &st),
    }
}

/// Takes a plain line behind SCHEDULE.
#[tactic(auto, unfolding(crate::specs::Reading::judge))]
fn take_plain(draft: &mut Draft<'_>, alloc: Global, line: &PlainLine<'_>) -> Result<(), ReadError>
    requires behind { draft.old.scheduled ≡ true }
    requires systems { Fits draft.old.deck.systems }
    requires lists { AreLists draft.old.deck.lists }
    ensures { Took result draft.new (judge draft.old line.now) }
{
    match plain_statement(draft.deck.entries, line) {
        Err(kind) => Err(refused(line.at(), kind)),
        Ok(st) => take_statement(draft, alloc, line.at(), &st),
    }
}

/// The next statement, where it stands behind SCHEDULE and is a plain line.
fn next_plain<'t>(draft: &Draft<'_>, rest: &mut Statements<'t>) -> Option<PlainLine<'t>>
    ensures next { IfSome result (λ line. Next (Some line) rest.old rest.new) }
    ensures behind { IfSome result (λ line. draft.now.scheduled ≡ true) }
    ensures same { IfNone result (rest.new ≡ rest.old) }
{
    if draft.scheduled {
        rest.next_plain()
    } else {
        None
    }
}

/// Takes the next statement, and says whether there was one.
fn take_next(
    draft: &mut Draft<'_>,
    alloc: Global,
    rest: &mut Statements<'_>,
) -> Result<bool, ReadError>
    requires systems { Fits draft.old.deck.systems }
    requires lists { AreLists draft.old.deck.lists }
    ensures { TookNext result draft.old rest.old draft.new rest.new }
{
    if let Some(line) = next_plain(draft, rest) {
        take_plain(draft, alloc, &line)?;
        return Ok(true);
    }
    let Some(line) = rest.next(alloc)? else {
        return Ok(false);
    };
    take_line(draft, alloc, &line)?;
    Ok(true)
}

/// A deck of which nothing was read, with the names that its SYSTEM statements give.
fn start<'t>(alloc: Global, names: SystemNames<'t>) -> Draft<'t>
    ensures { result ≡ no_draft names.entry }
{
    Draft {
        deck: Deck {
            star: false,
            entries: DEFAULT_ENTRIES,
            limit: DEFAULT_LIMIT,
            lists: Lists::new(alloc),
            systems: List::new(alloc),
            events: List::new(alloc),
        },
        names,
        begun: false,
        scheduled: false,
        room: MOST_LINES,
        displays: MOST_DISPLAYS,
    }
}

/// Takes statements in order, up to the first with a fault. Each is let go before the next one is read.
fn take_all<'t>(
    alloc: Global,
    names: SystemNames<'t>,
    statements: Statements<'t>,
) -> Result<Draft<'t>, ReadError>
    ensures { Gives result (judge_all (no_draft names.entry) statements.entry) }
{
    let mut draft = start(alloc, names);
    let mut rest = statements;
    while take_next(&mut draft, alloc, &mut rest)? {}
    Ok(draft)
}

/// Wants a system.
fn end(draft: Draft<'_>) -> Result<Deck, ReadError>
    ensures { Gives result (ended draft.entry) }
{
    if draft.deck.systems.len() == 0 {
        Err(refused(0, Kind::NoSystem))
    } else {
        Ok(draft.deck)
    }
}

/// What is read of a text.
#[tactic(auto, unfolding(crate::specs::Reading::reading))]
fn read_all(alloc: Global, text: &[u8]) -> Result<Deck, ReadError>
    ensures { Gives result (reading text.now) }
{
    let lines = Lines::new(text)?;
    let draft = take_all(alloc, SystemNames::new(text), Statements::new(lines))?;
    end(draft)
}

/// The deck that a text spells, or its first fault. Of
///
///     SYSTEM SYA
///     JOB PAYROLL
///     TASK MAKE
///     ENQ (PAYROLL,MASTER,E,SYSTEM)
///     SCHEDULE
///     SYA TASK PAYROLL.MAKE
///
/// it makes a deck of one system with one job, whose task has one line, and of one event, in which that
/// task goes on. Without its third line the fault is `OutOfPlace` on line 3: no task stands that the ENQ
/// could belong to. What COMPLEX doesn't say is ring mode, 64 lock entries and 4,096 requests a task.
///
/// `TooLong` and `NoSystem` are told with line 0, `BadByte` with the line of the first such byte,
/// and any other kind with the line on which the first faulty statement begins: it is the least
/// kind that applies to that statement, in the order of `grs_base::Kind`. Want of memory is `NoMemory`.
pub fn read_deck(alloc: Global, text: &[u8]) -> Result<Deck, ReadError>
    // What is read is spelled so, and has no fault; the fault is the text's first one, of the least kind.
    ensures exact { Answers result text.now }
    // What is spelled so is read, unless memory runs out.
    ensures only { (d : DeckValue) → SpellsDeck text.now d → IsOkUnlessMemory result d }
    // What is read is within the limits, and its events speak of what is there.
    ensures whole { IfOk result (λ d. IsDeck d) }
{
    read_all(alloc, text)
}
