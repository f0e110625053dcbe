//! The run of a deck that is made from a number, and the line that tells what it came to. Nothing is read, and no report is
//! built.
ghost use Rattle.std.specs.Prelude.{◌≡◌, ◌++◌, ◌∷◌, [], ◌+◌, length, filter, codes, IfOk, OnOk, if◌then◌else◌};
ghost use Rattle.std.specs.Fmt.{decimal};
ghost use Rattle.grs_base.specs.State.{State};
ghost use Rattle.grs_gen.specs.Generated.{IsSize};
ghost use Rattle.grs_gen.specs.Rounds.{round_of, switch_round};
ghost use Rattle.grs_display.specs.Lines.{spaced};
ghost use Rattle.grs_wire.specs.Decks.{IsDeck};
ghost use Rattle.grs_wire.specs.History.{answered, fixed_entries};
ghost use Rattle.grs_world.specs.Running.{starting, task_end};
ghost use Rattle.grs_world.specs.World.{run_from};
ghost use Rattle.grs_top.specs.LeftOut.{lasting, lasting_of};
ghost use Rattle.grs_top.specs.Generated.{rounds_of, is_ended, figures_after, figures_of, gen_line, status_of, gen_text, gen_ending, AnswersGen};

use super::Status;
use super::command::write_due;
use super::due::Due;
use super::left_out::happen;
use deck_tasks::tasks_of;
use grs_base::{List, NoMemory, SysId, TaskId};
use grs_display::put_number;
use grs_gen::{SWITCH_ROUND, deck, events_in, round_events};
use grs_io::Sink;
use grs_wire::{Deck, Event, Fixed, TaskEnd, Want};
use grs_world::World;
use std::alloc::Global;

/// How many rounds are made, at most.
const MOST_ROUNDS: u32 = 20_000;

/// What rounds of a deck come to.
#[derive(Clone, Copy, Debug)]
pub(crate) struct Figures {
    systems: u64,
    tasks: u64,
    rounds: u32,
    events: u64,
    history: u64,
    ended: u64,
    star: bool,
}

/// The rounds of a run that were made.
#[derive(Clone, Copy, Debug)]
struct Made {
    rounds: u32,
    events: u64,
}

/// A count with so many more. No memory holds what goes past the last one.
fn more(count: u64, more: u64) -> Result<u64, NoMemory>
    ensures { IfOk result (λ sum. sum ≡ count + more) }
{
    match count.checked_add(more) {
        Some(sum) => Ok(sum),
        None => Err(NoMemory),
    }
}

/// The events of a round happen, but for those that come to nothing, given those of the last kind of rounds. It tells how
/// many events the round has.
fn make_round(last: &[Event], world: &mut World<'_>, round: u32) -> Result<u64, NoMemory>
    requires { last.now ≡ round_of world.old.deck switch_round }
    ensures deck { OnOk result (world.new.deck ≡ world.old.deck) }
    ensures world { OnOk result (lasting world.new.world ≡ lasting (run_from world.old.deck world.old.world (round_of world.old.deck round))) }
    ensures events { IfOk result (λ events. events ≡ length (round_of world.old.deck round)) }
{
    let events = events_in(last, round);
    happen(world, events)?;
    Ok(events.len() as u64)
}

/// Round after round, until the world is at rest or as many were made as may be.
fn make_rounds(alloc: Global, deck: &Deck, world: &mut World<'_>) -> Result<Made, NoMemory>
    requires deck { IsDeck deck.now }
    requires world { world.old ≡ starting deck.now }
    ensures deck { OnOk result (world.new.deck ≡ deck.now) }
    ensures made { IfOk result (λ made. lasting_of (record { world = world.new.world; made = made.rounds; events = made.events }) ≡ lasting_of (rounds_of deck.now)) }
{
    let last = round_events(alloc, deck, SWITCH_ROUND)?;
    let mut events = 0;
    for rounds in 0..MOST_ROUNDS {
        if world.at_rest() {
            return Ok(Made { rounds, events });
        }
        let made = make_round(last.as_slice(), world, rounds + 1)?;
        events = more(events, made)?;
    }
    Ok(Made {
        rounds: MOST_ROUNDS,
        events,
    })
}

/// How many entries of the history something makes that was fixed.
#[tactic(auto, using(crate::proofs::HistoryLen::entries))]
fn entry_count(fixed: &Fixed) -> u64
    ensures { (lists : State) (system : SysId) → length (fixed_entries lists system fixed.now) ≡ result }
{
    match fixed {
        Fixed::Asked(req) => match &req.want {
            Want::Look { count, .. } => u64::from(*count),
            _ => 1,
        },
        Fixed::LocalLook { .. } | Fixed::Purged { .. } => 1,
    }
}

/// How many entries the history has.
#[tactic(auto, using(crate::proofs::HistoryLen::entries))]
fn history_len(fixed: &[(SysId, Fixed)]) -> Result<u64, NoMemory>
    ensures { IfOk result (λ count. count ≡ length (answered fixed.now)) }
{
    let mut count = 0;
    for entry in fixed {
        count = more(count, entry_count(&entry.1))?;
    }
    Ok(count)
}

/// Whether a task has ended.
fn has_ended(world: &World<'_>, task: TaskId) -> bool
    ensures { result ≡ is_ended (task_end world.now.world.medium.removed world.now.world.nodes task) }
{
    matches!(world.ended(task), TaskEnd::Ended)
}

/// How many of these tasks have ended.
fn ended_of(world: &World<'_>, tasks: &[TaskId]) -> u64
    ensures { result ≡ length (filter (λ t. is_ended (task_end world.now.world.medium.removed world.now.world.nodes t)) tasks.now) }
{
    let mut count = 0;
    for task in tasks {
        if has_ended(world, *task) {
            count += 1;
        }
    }
    count
}

/// What the rounds of a deck come to that led to this world.
#[tactic(auto, using(grs_wire::proofs::DeckLaws::bounds))]
fn figures_after(
    alloc: Global,
    deck: &Deck,
    world: &World<'_>,
    made: Made,
) -> Result<Figures, NoMemory>
    requires { IsDeck deck.now }
    ensures { IfOk result (λ figures. figures ≡ figures_after deck.now (record { world = world.now.world; made = made.rounds; events = made.events })) }
{
    let tasks = tasks_of(alloc, deck)?;
    let history = history_len(world.fixed().as_slice())?;
    Ok(Figures {
        systems: deck.systems.len() as u64,
        tasks: tasks.len() as u64,
        rounds: made.rounds,
        events: made.events,
        history,
        ended: ended_of(world, tasks.as_slice()),
        star: world.medium().star(),
    })
}

/// What the rounds of a deck come to.
#[tactic(auto, using(grs_wire::proofs::DeckLaws::bounds))]
fn figures_of(alloc: Global, deck: &Deck) -> Result<Figures, NoMemory>
    requires { IsDeck deck.now }
    ensures { IfOk result (λ figures. figures ≡ figures_of deck.now) }
{
    let mut world = World::new(alloc, deck)?;
    let made = make_rounds(alloc, deck, &mut world)?;
    figures_after(alloc, deck, &world, made)
}

/// Puts a name and its number behind a line, each with a blank before it.
fn put_figure(name: &[u8], number: u64, out: &mut List<u8>) -> Result<(), NoMemory>
    ensures { OnOk result (out.new ≡ out.old ++ spaced (name.now ∷ decimal number ∷ [])) }
{
    out.push(b' ')?;
    out.append(name)?;
    out.push(b' ')?;
    put_number(number, out)
}

/// Puts the mode behind a line.
fn put_mode(star: bool, out: &mut List<u8>) -> Result<(), NoMemory>
    ensures { OnOk result (out.new ≡ out.old ++ spaced (codes "MODE" ∷ (if star then codes "STAR" else codes "RING") ∷ [])) }
{
    if star {
        out.append(b" MODE STAR")
    } else {
        out.append(b" MODE RING")
    }
}

/// The line of a number whose run came to this.
#[tactic(auto, unfolding(crate::specs::Generated::gen_line, grs_display::specs::Lines::line))]
fn line_of(alloc: Global, n: u32, figures: Figures) -> Result<List<u8>, NoMemory>
    ensures { IfOk result (λ text. text ≡ gen_line n figures) }
{
    let mut out = List::from_bytes(alloc, b"GEN ")?;
    put_number(u64::from(n), &mut out)?;
    put_figure(b"SYSTEMS", figures.systems, &mut out)?;
    put_figure(b"TASKS", figures.tasks, &mut out)?;
    put_figure(b"ROUNDS", u64::from(figures.rounds), &mut out)?;
    put_figure(b"EVENTS", figures.events, &mut out)?;
    put_figure(b"HISTORY", figures.history, &mut out)?;
    put_figure(b"ENDED", figures.ended, &mut out)?;
    put_mode(figures.star, &mut out)?;
    out.push(b'\n')?;
    Ok(out)
}

/// The status that the figures give.
fn status_of(figures: Figures) -> Status
    ensures { result ≡ status_of figures }
{
    if figures.ended == figures.tasks {
        Status::Done
    } else {
        Status::Waits
    }
}

/// What is due for a number.
#[tactic(auto, unfolding(crate::specs::Generated::gen_text, crate::specs::Generated::gen_ending))]
fn due_of(alloc: Global, n: u32) -> Result<Due, NoMemory>
    requires { IsSize n }
    ensures out { IfOk result (λ due. due.out ≡ gen_text n) }
    ensures status { IfOk result (λ due. due.status ≡ gen_ending n) }
{
    let deck = deck(alloc, n)?;
    let figures = figures_of(alloc, &deck)?;
    Ok(Due {
        out: line_of(alloc, n, figures)?,
        status: status_of(figures),
    })
}

/// Makes the deck of a number from 1 to 64, runs it by rounds of events, and writes a line to a sink: the number, how many
/// systems and tasks the deck has, how many rounds and events were made and how many entries the history has, how many tasks
/// ended, and the mode in which the complex ends. A round is made as long as the world isn't at rest, and at most 20,000 are.
/// The line is built whole before the first write, and the first write that fails ends the command. It waits for nobody.
///
/// `Done` says that each task ended, `Waits` that some haven't, `WriteFault` that a write failed, and `NoMemory` that nothing
/// was written for want of memory. No other status comes.
pub fn gen_command<K: Sink>(alloc: Global, n: u32, sink: &mut K) -> Status
    requires { IsSize n }
    ensures { AnswersGen n (K.written sink.old) (K.written sink.new) (K.faults sink.old) (K.faults sink.new) result }
{
    match due_of(alloc, n) {
        Ok(due) => write_due(sink, &due),
        Err(NoMemory) => Status::NoMemory,
    }
}
