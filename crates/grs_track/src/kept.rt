//! What is kept of each task behind a history. Nothing here knows lists.
ghost use Rattle.std.specs.Prelude.{◌≡◌, ◌≤◌, ℕ, suc, cond, Some, is_some, None, option_copied, IfOk, OnOk};
ghost use Rattle.std.specs.Map.{lookup};
ghost use Rattle.indexmap.specs.IndexMap.{spare};
ghost use Rattle.grs_base.specs.Same.{same_task};
ghost use Rattle.grs_base.specs.declared.resource.TaskId.{TaskId as TaskValue};
ghost use Rattle.grs_legal.specs.Legal as legal;
ghost use Rattle.grs_track.specs.Track as tracks;
ghost use Rattle.grs_track.specs.Walk.{IsInLines, IsPast};

use super::cursor::{Cursor, onward};
use grs_base::{Code, Line, NoMemory, Res, TaskId};
use grs_wire::HistEntry;
use indexmap::IndexMap;
use std::alloc::Global;
use std::marker::Model;

/// What is kept of a task: how many entries its lines asked for, whether a code ended it, the resource for which it was
/// answered WAIT by its last entry, and how far it is in its lines, so that nobody goes through them from the first on.
#[derive(Drop)]
pub(crate) struct Kept {
    pub(crate) asked: usize,
    pub(crate) ended: bool,
    pub(crate) waits: Option<Res>,
    pub(crate) cursor: Cursor,
}

impl Model for Kept {
    ghost use Rattle.grs_track.specs.Track as tracks;

    ghost Value = { tracks.Kept };

    ghost view = { λ a. record { track = record { asked = a.asked; ended = a.ended; waits = a.waits }; place = a.cursor.place; part = a.cursor.part } };
}

impl Kept {
    /// What is kept of a task that asked for nothing.
    pub(crate) fn fresh() -> Self
        ensures { result ≡ tracks.new_kept }
    {
        Kept {
            asked: 0,
            ended: false,
            waits: None,
            cursor: Cursor { place: 0, part: 0 },
        }
    }
}

/// Whether an entry was asked by a line, and not by the task's end.
fn is_of_line(entry: &HistEntry) -> bool
    ensures { result ≡ legal.is_of_line entry.now }
{
    match entry {
        HistEntry::Enq { .. } | HistEntry::Deq { .. } | HistEntry::Look { .. } => true,
        HistEntry::Release { .. } | HistEntry::Remove { .. } => false,
    }
}

/// Whether a code is an end.
fn is_end(code: Code) -> bool
    ensures { result ≡ is_some (legal.end_or code None) }
{
    match code {
        Code::End(_) => true,
        _ => false,
    }
}

/// Whether an entry of a line ends its task.
fn ends(entry: &HistEntry) -> bool
    ensures { result ≡ tracks.ends entry.now }
{
    match entry {
        HistEntry::Enq { code, .. } | HistEntry::Deq { code, .. } => is_end(*code),
        _ => false,
    }
}

/// The resource for which a task waits that was answered so.
fn waited_for(alloc: Global, code: Code, res: &Res) -> Result<Option<Res>, NoMemory>
    ensures { IfOk result (λ waits. waits ≡ tracks.waited_for code res.now) }
{
    match code {
        Code::Wait => Ok(Some(res.copy(alloc)?)),
        _ => Ok(None),
    }
}

/// The resource for which the task of an entry waits behind it.
fn waits_behind(alloc: Global, entry: &HistEntry) -> Result<Option<Res>, NoMemory>
    ensures { IfOk result (λ waits. waits ≡ tracks.waits_behind entry.now) }
{
    match entry {
        HistEntry::Enq { res, code, .. } | HistEntry::Deq { res, code, .. } => {
            waited_for(alloc, *code, res)
        }
        _ => Ok(None),
    }
}

/// How many entries of a task's lines there are behind one more entry. There is no memory for more than there are
/// numbers.
fn asked_behind(asked: usize, entry: &HistEntry) -> Result<usize, NoMemory>
    ensures { IfOk result (λ n. n ≡ cond (legal.is_of_line entry.now) (suc asked) asked) }
{
    if !is_of_line(entry) {
        return Ok(asked);
    }
    match asked.checked_add(1) {
        Some(more) => Ok(more),
        None => Err(NoMemory),
    }
}

/// How far a task is in its lines behind one more entry of its own.
fn cursor_behind(lines: &[Line], before: Cursor, entry: &HistEntry) -> Result<Cursor, NoMemory>
    ensures { (asked : ℕ) → IsPast lines.now asked before.place before.part → IfOk result (λ c. IsPast lines.now (cond (legal.is_of_line entry.now) (suc asked) asked) c.place c.part) }
{
    let part = asked_behind(before.part, entry)?;
    let place = before.place;
    Ok(onward(lines, Cursor { place, part }))
}

/// What is kept of a task with these lines behind one more entry of its own.
pub(crate) fn kept_behind(
    alloc: Global,
    lines: &[Line],
    before: &Kept,
    entry: &HistEntry,
) -> Result<Kept, NoMemory>
    requires { IsInLines lines.now before.now }
    ensures track { IfOk result (λ k. k.track ≡ tracks.track_behind before.now.track entry.now) }
    ensures at { IfOk result (IsInLines lines.now) }
{
    Ok(Kept {
        asked: asked_behind(before.asked, entry)?,
        ended: before.ended || ends(entry),
        waits: waits_behind(alloc, entry)?,
        cursor: cursor_behind(lines, before.cursor, entry)?,
    })
}

/// What is kept of a task, if anything is.
pub(crate) fn find_kept(all: &IndexMap<TaskId, Kept>, task: TaskId) -> Option<&Kept>
    ensures { option_copied result ≡ lookup (same_task task) all.now.entries }
{
    all.get(&task)
}

/// What is kept of a task, if anything is, and else what is kept of one that asked for nothing.
pub(crate) fn kept_or<'k>(
    all: &'k IndexMap<TaskId, Kept>,
    task: TaskId,
    fresh: &'k Kept,
) -> &'k Kept
    requires { fresh.now ≡ tracks.new_kept }
    ensures { result.now ≡ tracks.kept_in (lookup (same_task task) all.now.entries) }
{
    match find_kept(all, task) {
        Some(kept) => kept,
        None => fresh,
    }
}

/// Makes room for one more task.
pub(crate) fn reserve_kept(all: &mut IndexMap<TaskId, Kept>) -> Result<(), NoMemory>
    ensures same { all.new.entries ≡ all.old.entries }
    ensures room { OnOk result (1 ≤ spare all.new) }
{
    match all.reserve(1) {
        Ok(()) => Ok(()),
        Err(_) => Err(NoMemory),
    }
}

/// Keeps this of a task.
pub(crate) fn put_kept(all: &mut IndexMap<TaskId, Kept>, task: TaskId, kept: Kept)
    requires { 1 ≤ spare all.old }
    ensures { (t : TaskValue) → lookup (same_task t) all.new.entries ≡ cond (same_task task t) (Some kept) (lookup (same_task t) all.old.entries) }
{
    match all.insert(task, kept) {
        Ok(_) => {}
        Err(_) => unreachable!(),
    }
}
