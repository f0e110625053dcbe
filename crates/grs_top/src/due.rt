//! What a text is answered by: what the command writes for the deck that it spells, or the line of its first
//! fault. The answer is built whole before any of it is written.
ghost use Rattle.std.specs.Prelude.{◌≡◌, ◌≤◌, ◌<◌, ◌+◌, [], length, IfOk, if◌then◌else◌};
ghost use Rattle.grs_analyze.specs.Text.{analysis_text};
ghost use Rattle.grs_audit.specs.Lines.{lines_in, most_lines};
ghost use Rattle.grs_enf.specs.Notices.{notices};
ghost use Rattle.grs_enf.specs.Text.{notices_text};
ghost use Rattle.grs_latch.specs.Calls.{AllCome};
ghost use Rattle.grs_report.specs.Ends.{all_ended};
ghost use Rattle.grs_report.specs.Report.{report};
ghost use Rattle.grs_wire.specs.Decks.{IsDeck};
ghost use Rattle.grs_world.specs.Stopped.{stopped as events_left};
ghost use Rattle.grs_top.specs.Due.{fault_line, IsDue};
ghost use Rattle.grs_top.specs.Schedules.{unscheduled};
ghost use Rattle.grs_top.specs.Texts.{IsReported, IsRunToRest, IsAnalyzed, AreNoticed, AreAnswered, IsListed, IsJudged, verdict_status};

use super::Status;
use super::beside::seen_of;
use super::fault_line::fault_line;
use super::laws::{merged_rests, merged_runs};
use super::lists::lists_text;
use super::seen::{run_of, seen_by_replay};
use super::stop::{Stop, system_place};
use super::words::Command;
use grs_analyze::analysis_text;
use grs_analyze::laws::lists_are_apart;
use grs_audit::{MOST_AUDITED_BYTES, Verdict, audit, halves_of, verdict_text};
use grs_base::{DeckFault, Kind, List, NoMemory, ReadError, SysId, TaskId};
use grs_deck::read_deck;
use grs_enf::laws::codes_tell_notices;
use grs_enf::notices_text;
use grs_history::queues_after;
use grs_latch::LatchCall;
use grs_report::{all_ended, report};
use grs_wire::{Deck, Event, Seen, TaskEnd};
use grs_workers::{Gate, run_workers};
use grs_world::laws::{passed_is_told, removed_tell_nothing, rests_in_the_end, runs_are_sound};
use grs_world::stopped;
use latch_form::read_calls;
use latch_text::latch_text;
use std::alloc::Global;
use std::sync::Wait;
use std::thread::Threads;

/// What is told of a deck that has no system of the name that `stop` gives.
const NO_SUCH_SYSTEM: DeckFault = DeckFault {
    line: 0,
    kind: Kind::UnknownName,
};

/// What is to be written, and the status where all of it is.
#[derive(Drop)]
pub(crate) struct Due {
    pub(crate) out: List<u8>,
    pub(crate) status: Status,
}

fn ending(done: bool) -> Status
    ensures { result ≡ (if done then Status.Done else Status.Waits) }
{
    if done { Status::Done } else { Status::Waits }
}

/// How a verdict ends.
fn verdict_status(verdict: Verdict) -> Status
    ensures { result ≡ verdict_status verdict }
{
    match verdict {
        Verdict::Yes => Status::Done,
        Verdict::No { .. } => Status::Bad,
    }
}

/// A text of a run, with how the run ends by the end of each task.
fn told(out: List<u8>, ended: &[(TaskId, TaskEnd)]) -> Due
    ensures out { result.out ≡ out }
    ensures status { result.status ≡ (if all_ended ended.now then Status.Done else Status.Waits) }
{
    Due {
        out,
        status: ending(all_ended(ended)),
    }
}

/// The report of what is seen of a run.
fn report_due(alloc: Global, deck: &Deck, seen: &Seen) -> Result<Due, NoMemory>
    requires { IsDeck deck.now }
    ensures out { IfOk result (λ due. due.out ≡ report deck.now seen.now) }
    ensures status { IfOk result (λ due. due.status ≡ (if all_ended seen.now.ended then Status.Done else Status.Waits)) }
{
    let out = report(alloc, deck, seen)?;
    Ok(told(out, seen.ended.as_slice()))
}

/// A deck without its schedule, and the events that stood there.
fn set_apart(alloc: Global, deck: Deck) -> (Deck, List<Event>)
    requires { IsDeck deck }
    ensures deck { result.0 ≡ unscheduled deck }
    ensures events { result.1 ≡ deck.events }
    ensures fits { IsDeck result.0 }
{
    let Deck {
        star,
        entries,
        limit,
        lists,
        systems,
        events,
    } = deck;
    let bare = Deck {
        star,
        entries,
        limit,
        lists,
        systems,
        events: List::new(alloc),
    };
    (bare, events)
}

/// The report of the run of these events.
fn replayed(alloc: Global, deck: &Deck, events: List<Event>) -> Result<Due, NoMemory>
    requires { IsDeck deck.now }
    ensures { IfOk result (λ due. IsReported deck.now events due.out due.status) }
{
    runs_are_sound();
    passed_is_told();
    removed_tell_nothing();
    let seen = seen_by_replay(alloc, deck, events)?;
    report_due(alloc, deck, &seen)
}

/// The report of the run of a deck's events with a system that stops.
#[tactic(auto, using(grs_wire::proofs::DeckLaws::bounds))]
fn stop_replayed(alloc: Global, deck: Deck, system: SysId, events: u32) -> Result<Due, NoMemory>
    requires deck { IsDeck deck }
    requires system { system.0 < length deck.systems }
    ensures { IfOk result (λ due. IsReported (unscheduled deck) (events_left (unscheduled deck) system events deck.events) due.out due.status) }
{
    let (bare, order) = set_apart(alloc, deck);
    let left = stopped(alloc, &bare, order.as_slice(), system, events)?;
    replayed(alloc, &bare, left)
}

/// The report of the run of a deck's systems beside each other, for which it waits.
#[tactic(auto, using(grs_wire::proofs::DeckLaws::bounds))]
pub(crate) fn ran<R: Threads + Wait + Sync, G: Gate + Sync>(
    rt: &R,
    alloc: Global,
    deck: &Deck,
    gate: &G,
) -> Result<Due, NoMemory>
    requires { IsDeck deck.now }
    ensures { IfOk result (λ due. IsRunToRest deck.now due.out due.status) }
{
    runs_are_sound();
    passed_is_told();
    removed_tell_nothing();
    merged_runs();
    merged_rests();
    rests_in_the_end();
    let ran = run_workers(rt, alloc, deck, gate)?;
    let seen = seen_of(alloc, deck, &ran.medium, ran.journal.as_slice(), &ran.nodes)?;
    drop(ran);
    report_due(alloc, deck, &seen)
}

/// The analysis of the lists that the run of these events leaves.
fn analyzed(alloc: Global, deck: &Deck, events: &[Event]) -> Result<Due, NoMemory>
    requires { IsDeck deck.now }
    ensures { IfOk result (λ due. IsAnalyzed deck.now events.now due.out due.status) }
{
    runs_are_sound();
    lists_are_apart();
    let past = run_of(alloc, deck, events)?;
    let queues = queues_after(alloc, past.hist.as_slice(), deck.limit)?;
    let out = analysis_text(alloc, deck, &queues)?;
    Ok(told(out, past.ended.as_slice()))
}

/// The notices of contention along the history of the run of these events.
fn noticed(alloc: Global, deck: &Deck, events: &[Event]) -> Result<Due, NoMemory>
    requires { IsDeck deck.now }
    ensures { IfOk result (λ due. AreNoticed deck.now events.now due.out due.status) }
{
    runs_are_sound();
    codes_tell_notices();
    let past = run_of(alloc, deck, events)?;
    let out = notices_text(alloc, deck, past.hist.as_slice())?;
    Ok(told(out, past.ended.as_slice()))
}

/// What a text is answered by of which nothing could be read.
fn refused(alloc: Global, error: ReadError) -> Result<Due, NoMemory>
    ensures { IfOk result (λ due. (fault : _) × (error ≡ ReadError.Fault fault) × (due.out ≡ fault_line fault) × (due.status ≡ Status.Deck)) }
{
    match error {
        ReadError::Fault(fault) => Ok(Due {
            out: fault_line(alloc, fault)?,
            status: Status::Deck,
        }),
        ReadError::NoMemory => Err(NoMemory),
    }
}

/// What calls of latches are answered, and what they leave.
fn latched(alloc: Global, calls: &[LatchCall]) -> Result<Due, NoMemory>
    requires { AllCome calls.now [] }
    ensures { IfOk result (λ due. AreAnswered calls.now due.out due.status) }
{
    let out = latch_text(alloc, calls)?;
    Ok(Due {
        out,
        status: Status::Done,
    })
}

/// The name lists of a deck.
fn listed(alloc: Global, deck: &Deck) -> Result<Due, NoMemory>
    ensures { IfOk result (λ due. IsListed deck.now due.out due.status) }
{
    let out = lists_text(alloc, deck)?;
    Ok(Due {
        out,
        status: Status::Done,
    })
}

/// What a text is answered by under `replay`.
pub(crate) fn due_by_replay(alloc: Global, text: &[u8]) -> Result<Due, NoMemory>
    ensures { IfOk result (λ due. IsDue Command.Replay text.now due.out due.status) }
{
    match read_deck(alloc, text) {
        Ok(deck) => {
            let (bare, events) = set_apart(alloc, deck);
            replayed(alloc, &bare, events)
        }
        Err(error) => refused(alloc, error),
    }
}

/// What a text is answered by under `run`, which waits for the systems of its deck.
pub(crate) fn due_by_run<R: Threads + Wait + Sync, G: Gate + Sync>(
    rt: &R,
    alloc: Global,
    text: &[u8],
    gate: &G,
) -> Result<Due, NoMemory>
    ensures { IfOk result (λ due. IsDue Command.Run text.now due.out due.status) }
{
    match read_deck(alloc, text) {
        Ok(deck) => {
            let (bare, _events) = set_apart(alloc, deck);
            ran(rt, alloc, &bare, gate)
        }
        Err(error) => refused(alloc, error),
    }
}

/// What a text is answered by under `lists`.
pub(crate) fn due_by_lists(alloc: Global, text: &[u8]) -> Result<Due, NoMemory>
    ensures { IfOk result (λ due. IsDue Command.Lists text.now due.out due.status) }
{
    match read_deck(alloc, text) {
        Ok(deck) => listed(alloc, &deck),
        Err(error) => refused(alloc, error),
    }
}

/// What a text is answered by under `analyze`.
pub(crate) fn due_by_analyze(alloc: Global, text: &[u8]) -> Result<Due, NoMemory>
    ensures { IfOk result (λ due. IsDue Command.Analyze text.now due.out due.status) }
{
    match read_deck(alloc, text) {
        Ok(deck) => {
            let (bare, events) = set_apart(alloc, deck);
            analyzed(alloc, &bare, events.as_slice())
        }
        Err(error) => refused(alloc, error),
    }
}

/// What a text is answered by under `notices`.
pub(crate) fn due_by_notices(alloc: Global, text: &[u8]) -> Result<Due, NoMemory>
    ensures { IfOk result (λ due. IsDue Command.Notices text.now due.out due.status) }
{
    match read_deck(alloc, text) {
        Ok(deck) => {
            let (bare, events) = set_apart(alloc, deck);
            noticed(alloc, &bare, events.as_slice())
        }
        Err(error) => refused(alloc, error),
    }
}

/// What a text is answered by under `latch`.
pub(crate) fn due_by_latch(alloc: Global, text: &[u8]) -> Result<Due, NoMemory>
    ensures { IfOk result (λ due. IsDue Command.Latch text.now due.out due.status) }
{
    match read_calls(alloc, text) {
        Ok(calls) => latched(alloc, calls.as_slice()),
        Err(error) => refused(alloc, error),
    }
}

/// What a text is answered by under `stop`.
pub(crate) fn due_by_stop(alloc: Global, stop: Stop, text: &[u8]) -> Result<Due, NoMemory>
    ensures { IfOk result (λ due. IsDue (Command.Stop stop) text.now due.out due.status) }
{
    match read_deck(alloc, text) {
        Ok(deck) => match system_place(deck.systems.as_slice(), stop.name()) {
            Some(system) => stop_replayed(alloc, deck, SysId(system as u8), stop.events()),
            None => refused(alloc, ReadError::Fault(NO_SUCH_SYSTEM)),
        },
        Err(error) => refused(alloc, error),
    }
}

/// The verdict on a report of a deck, whose first line has this number.
fn judged(alloc: Global, deck: &Deck, report: &[u8], first: u32) -> Result<Due, NoMemory>
    requires deck { IsDeck deck.now }
    requires few { first + length (lines_in report.now) ≤ most_lines }
    ensures { IfOk result (λ due. IsJudged (record { deck = deck.now; report = report.now; first = first }) due.out due.status) }
{
    let verdict = audit(alloc, deck, report, first)?;
    Ok(Due {
        out: verdict_text(alloc, verdict)?,
        status: verdict_status(verdict),
    })
}

/// What a text is answered by under `audit`.
pub(crate) fn due_by_audit(alloc: Global, text: &[u8]) -> Result<Due, NoMemory>
    ensures { IfOk result (λ due. IsDue Command.Audit text.now due.out due.status) }
{
    if text.len() > MOST_AUDITED_BYTES {
        return refused(
            alloc,
            ReadError::Fault(DeckFault {
                line: 0,
                kind: Kind::TooLong,
            }),
        );
    }
    let halves = halves_of(text);
    match read_deck(alloc, halves.deck) {
        Ok(deck) => judged(alloc, &deck, halves.report, halves.first),
        Err(error) => refused(alloc, error),
    }
}
