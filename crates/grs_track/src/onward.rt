//! What a task asks next by its lines, as an entry with the reply that the lists give.
ghost use Rattle.std.specs.Prelude.{IsSomeAnd, ◌≡◌, ◌<◌, ◌+◌, ℕ, Some, length, slice_get, IfOk};
ghost use Rattle.std.specs.Option.{option_map};
ghost use Rattle.grs_legal.specs.Asks.{AsksLook, asks_in, looks_in, meaning_of};
ghost use Rattle.grs_track.specs.Track.{entry_for};
ghost use Rattle.grs_track.specs.Walk.{GoesOnBy, IsInLines, meant};

use super::kept::Kept;
use super::walk::{Stand, stand_in};
use grs_base::{Line, NoMemory, Place, TaskId};
use grs_legal::{Display, Meaning, meaning_of};
use grs_wire::HistEntry;
use qel_store::LinkedQueues;
use queue_table::Table;
use scope_resolve::Resolver;
use std::alloc::Global;

/// How a task goes on in its lines.
#[derive(Drop)]
pub(crate) enum Onward {
    /// A WAIT line holds it.
    Held,
    /// No line asks any more.
    Behind,
    /// It asks this next.
    Asks(HistEntry),
}

/// A slice that stands so far behind another. There is no memory for numbers past 4,294,967,295.
fn slice_behind(first: u32, far: usize) -> Result<Place, NoMemory>
    ensures { IfOk result (λ place. place ≡ Place.Slice (first + far)) }
{
    match u32::try_from(far) {
        Ok(far) => match first.checked_add(far) {
            Some(slice) => Ok(Place::Slice(slice)),
            None => Err(NoMemory),
        },
        Err(_) => Err(NoMemory),
    }
}

/// The place at which a line looks that shows lists, behind so many looks of its own.
fn place_in(display: &Display, part: usize) -> Result<Place, NoMemory>
    requires { part < length (looks_in display.now) }
    ensures { IfOk result (λ place. slice_get (looks_in display.now) part ≡ Some (AsksLook place display.now.filter)) }
{
    match display.home {
        Some(system) => {
            if part == 0 {
                Ok(Place::Local(system))
            } else {
                slice_behind(display.first, part - 1)
            }
        }
        None => slice_behind(display.first, part),
    }
}

/// The look of a line that shows lists, behind so many looks of its own.
fn look_of(
    alloc: Global,
    table: &Table<LinkedQueues>,
    task: TaskId,
    display: Display,
    part: usize,
) -> Result<HistEntry, NoMemory>
    requires { part < length (looks_in display) }
    ensures { (limit : ℕ) → IfOk result (λ h. option_map (entry_for limit table.now.elements task) (slice_get (looks_in display) part) ≡ Some h) }
{
    let place = place_in(&display, part)?;
    let rows = table.look(alloc, place, &display.filter)?;
    Ok(HistEntry::Look {
        task,
        place,
        filter: display.filter,
        rows,
    })
}

/// What a line that means this asks, behind so many entries of its own. A task may have `limit` elements.
fn entry_of(
    alloc: Global,
    limit: u32,
    table: &Table<LinkedQueues>,
    task: TaskId,
    meaning: Meaning,
    part: usize,
) -> Result<HistEntry, NoMemory>
    requires { part < length (asks_in meaning) }
    ensures { IfOk result (λ h. option_map (entry_for limit table.now.elements task) (slice_get (asks_in meaning) part) ≡ Some h) }
{
    match meaning {
        Meaning::Enq { res, ctl, ret, .. } => {
            let full = limit as usize <= table.count(task);
            let code = table.decide_enq(&res, task, ctl, ret, full).code;
            Ok(HistEntry::Enq {
                task,
                res,
                ctl,
                ret,
                code,
            })
        }
        Meaning::Deq { res, have } => {
            let code = table.decide_deq(&res, task, have);
            Ok(HistEntry::Deq {
                task,
                res,
                have,
                code,
            })
        }
        Meaning::Shows(display) => look_of(alloc, table, task, display, part),
        Meaning::Wait { .. } | Meaning::Nothing => unreachable!(),
    }
}

/// What the line at a place asks, behind so many entries of its own.
fn entry_at(
    alloc: Global,
    limit: u32,
    resolver: &Resolver<'_>,
    table: &Table<LinkedQueues>,
    task: TaskId,
    lines: &[Line],
    place: usize,
    part: usize,
) -> Result<HistEntry, NoMemory>
    requires { IsSomeAnd (slice_get lines.now place) (λ l. part < length (asks_in (meaning_of resolver.now task l))) }
    ensures { IfOk result (λ h. IsSomeAnd (slice_get lines.now place) (λ l. option_map (entry_for limit table.now.elements task) (slice_get (asks_in (meaning_of resolver.now task l)) part) ≡ Some h)) }
{
    match lines.get(place) {
        Some(line) => {
            let meaning = meaning_of(alloc, resolver, task, line)?;
            entry_of(alloc, limit, table, task, meaning, part)
        }
        None => unreachable!(),
    }
}

/// How a task goes on of which this is kept.
pub(crate) fn onward_in(
    alloc: Global,
    limit: u32,
    resolver: &Resolver<'_>,
    table: &Table<LinkedQueues>,
    task: TaskId,
    lines: &[Line],
    kept: &Kept,
) -> Result<Onward, NoMemory>
    requires { IsInLines lines.now kept.now }
    ensures { IfOk result (λ o. GoesOnBy limit table.now.elements task (meant resolver.now task lines.now) kept.now.track.asked o) }
{
    match stand_in(alloc, resolver, table, task, lines, kept.cursor)? {
        Stand::Held => Ok(Onward::Held),
        Stand::Behind => Ok(Onward::Behind),
        Stand::At { place, part } => Ok(Onward::Asks(entry_at(
            alloc, limit, resolver, table, task, lines, place, part,
        )?)),
    }
}
