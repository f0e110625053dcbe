//! What a task asks next, by its lines and what is kept of it.
ghost use Rattle.std.specs.Prelude.{◌≡◌, ℕ, IfOk, slice_get};
ghost use Rattle.std.specs.Option.{option_map};
ghost use Rattle.grs_base.specs.State.{queued_by};
ghost use Rattle.grs_legal.specs.Asks.{AsksRelease};
ghost use Rattle.grs_track.specs.Track.{entry_for, entry_next};
ghost use Rattle.grs_track.specs.Walk.{IsInLines, meant};

use super::free::is_free;
use super::kept::Kept;
use super::onward::{Onward, onward_in};
use grs_base::{Line, NoMemory, TaskId};
use grs_wire::HistEntry;
use qel_store::LinkedQueues;
use queue_table::Table;
use scope_resolve::Resolver;
use std::alloc::Global;

/// The release of what a task has had longest, if it has anything.
fn release_next(
    alloc: Global,
    table: &Table<LinkedQueues>,
    task: TaskId,
) -> Result<Option<HistEntry>, NoMemory>
    ensures { (limit : ℕ) → IfOk result (λ next. next ≡ option_map (entry_for limit table.now.elements task) (option_map AsksRelease (slice_get (queued_by table.now.elements task) 0))) }
{
    match table.first_of(task) {
        Some(res) => {
            let res = res.copy(alloc)?;
            Ok(Some(HistEntry::Release { task, res }))
        }
        None => Ok(None),
    }
}

/// The one entry that a task with these lines may ask next, if it may ask one. It may have `limit` elements.
pub(crate) fn next_by(
    alloc: Global,
    limit: u32,
    resolver: &Resolver<'_>,
    table: &Table<LinkedQueues>,
    task: TaskId,
    lines: &[Line],
    kept: &Kept,
) -> Result<Option<HistEntry>, NoMemory>
    requires { IsInLines lines.now kept.now }
    ensures { IfOk result (λ next. next ≡ entry_next limit table.now.elements task (meant resolver.now task lines.now) kept.now.track) }
{
    if !is_free(table, task, &kept.waits) {
        return Ok(None);
    }
    if kept.ended {
        return release_next(alloc, table, task);
    }
    match onward_in(alloc, limit, resolver, table, task, lines, kept)? {
        Onward::Held => Ok(None),
        Onward::Behind => release_next(alloc, table, task),
        Onward::Asks(entry) => Ok(Some(entry)),
    }
}
