//! What the report of a deck shows: the run of events, its history, and where that leaves the
//! lists and the tasks.
ghost use Rattle.std.specs.Prelude.{◌≡◌, IfOk};
ghost use Rattle.grs_wire.specs.Decks.{IsDeck};
ghost use Rattle.grs_world.specs.World.{run, hist, told};
ghost use Rattle.grs_world.specs.Running.{units_of};
ghost use Rattle.deck_tasks.specs.Tasks.{tasks_of};
ghost use Rattle.grs_top.specs.Tasks.{ends_at};
ghost use Rattle.grs_top.specs.Seen.{seen_of_run};

use super::ends::ends_of;
use grs_base::{List, NoMemory, SysId, TaskId};
use grs_history::{answers, queues_after};
use grs_wire::{Deck, Event, HistEntry, Seen, TaskEnd, Told};
use grs_world::{World, replay};
use std::alloc::Global;

/// What is seen of a run itself: its history, what was told, the units that are reserved, the lock words and the
/// mode, and the end of each task.
#[derive(Drop)]
pub(crate) struct Run {
    pub(crate) hist: List<HistEntry>,
    told: List<Told>,
    units: List<(SysId, u16, u32)>,
    words: List<u32>,
    star: bool,
    pub(crate) ended: List<(TaskId, TaskEnd)>,
}

/// What is seen of the last world of a run.
#[derive(Drop)]
struct Last {
    units: List<(SysId, u16, u32)>,
    words: List<u32>,
    star: bool,
    ended: List<(TaskId, TaskEnd)>,
}

/// What is seen of a world of a deck.
fn last_of(alloc: Global, deck: &Deck, world: &World<'_>) -> Result<Last, NoMemory>
    requires { IsDeck deck.now }
    ensures units { IfOk result (λ last. last.units ≡ units_of world.now.world.nodes) }
    ensures words { IfOk result (λ last. last.words ≡ world.now.world.medium.words) }
    ensures star { IfOk result (λ last. last.star ≡ world.now.world.medium.star) }
    ensures ended { IfOk result (λ last. last.ended ≡ ends_at world.now.world.medium.removed world.now.world.nodes (tasks_of deck.now)) }
{
    let units = world.units()?;
    let words = world.medium().words().copy(alloc)?;
    let star = world.medium().star();
    let ended = ends_of(alloc, deck, world.medium().removed(), world.nodes())?;
    Ok(Last {
        units,
        words,
        star,
        ended,
    })
}

/// The run of these events.
#[tactic(auto, using(grs_wire::proofs::DeckLaws::bounds))]
pub(crate) fn run_of(alloc: Global, deck: &Deck, events: &[Event]) -> Result<Run, NoMemory>
    requires { IsDeck deck.now }
    ensures hist { IfOk result (λ seen. seen.hist ≡ hist deck.now events.now) }
    ensures told { IfOk result (λ seen. seen.told ≡ told deck.now events.now) }
    ensures units { IfOk result (λ seen. seen.units ≡ units_of (run deck.now events.now).nodes) }
    ensures words { IfOk result (λ seen. seen.words ≡ (run deck.now events.now).medium.words) }
    ensures star { IfOk result (λ seen. seen.star ≡ (run deck.now events.now).medium.star) }
    ensures ended { IfOk result (λ seen. seen.ended ≡ ends_at (run deck.now events.now).medium.removed (run deck.now events.now).nodes (tasks_of deck.now)) }
{
    let world = replay(alloc, deck, events)?;
    let last = last_of(alloc, deck, &world)?;
    let log = world.into_log();
    let hist = answers(alloc, log.fixed.as_slice())?;
    Ok(Run {
        hist,
        told: log.told,
        units: last.units,
        words: last.words,
        star: last.star,
        ended: last.ended,
    })
}

/// What the run of these events shows.
///
/// # Errors
///
/// `NoMemory` where there was no memory for the run or for what it shows.
#[tactic(auto, unfolding(crate::specs::Seen::seen_of_run))]
pub fn seen_by_replay(alloc: Global, deck: &Deck, events: List<Event>) -> Result<Seen, NoMemory>
    requires { IsDeck deck.now }
    ensures { IfOk result (λ seen. seen ≡ seen_of_run deck.now events) }
{
    let run = run_of(alloc, deck, events.as_slice())?;
    let queues = queues_after(alloc, run.hist.as_slice(), deck.limit)?;
    Ok(Seen {
        events,
        hist: run.hist,
        told: run.told,
        queues,
        units: run.units,
        words: run.words,
        star: run.star,
        ended: run.ended,
    })
}
