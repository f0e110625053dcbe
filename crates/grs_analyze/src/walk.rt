//! The walk along the greatest set, and the cycle to which it comes.
ghost use Rattle.std.specs.Prelude.{◌≡◌, ◌≤◌, ◌<◌, ◌+◌, ◌++◌, ◌||◌, ◌&&◌, ℕ, true, false, length, take, drop, get_or, replicate, IfOk, IfSome, IfNone};
ghost use Rattle.grs_base.specs.Same.{same_task};
ghost use Rattle.grs_base.specs.declared.resource.TaskId.{TaskId as TaskValue};
ghost use Rattle.grs_analyze.specs.Depends.{AreApart, excludes as are_exclusive, blocks, is_kept_by};
ghost use Rattle.grs_analyze.specs.Greatest.{is_among};
ghost use Rattle.grs_analyze.specs.Walk.{least, next_of, from_task, reported_cycle};
ghost use Rattle.grs_analyze.specs.Numbered.{elems_of, AreNamed, IsNamedLine, AreNamedLines, waits_among, is_flagged, flagged, IsNumbered};

use super::flags::{all_flags, least, meet, put_up};
use super::greatest::greatest;
use super::numbered::{Line, Numbered, Spot};
use grs_base::{Ctl, List, NoMemory, Row, TaskId, is_same_task};
use std::alloc::Global;

/// Whether two can't have control side by side.
pub(crate) fn excludes(c: Ctl, d: Ctl) -> bool
    ensures { result ≡ are_exclusive c d }
{
    c == Ctl::E || d == Ctl::E
}

/// Marks the tasks of these elements that keep control of this kind away.
fn mark_front(tasks: &[TaskId], spots: &[Spot], ctl: Ctl, marks: &mut [bool])
    requires marks { length marks.old ≡ length tasks.now }
    requires named { AreNamed tasks.now spots.now }
    ensures long { length marks.new ≡ length tasks.now }
    ensures marked { (u : TaskValue) → is_flagged tasks.now marks.new u ≡ (is_flagged tasks.now marks.old u || blocks (same_task u) ctl (elems_of spots.now)) }
{
    for spot in spots {
        if excludes(ctl, spot.elem.ctl) {
            put_up(tasks, marks, spot.number, spot.elem.task);
        }
    }
}

/// Marks the tasks that keep a task away by the element at this place of those that wait, if it is the task's.
#[tactic(auto, using(crate::proofs::MarkLemmas::waiters_more))]
fn mark_at(
    tasks: &[TaskId],
    front: &[Spot],
    waiters: &[Spot],
    place: usize,
    task: TaskId,
    marks: &mut [bool],
)
    requires marks { length marks.old ≡ length tasks.now }
    requires front { AreNamed tasks.now front.now }
    requires waiters { AreNamed tasks.now waiters.now }
    requires within { place < length waiters.now }
    ensures long { length marks.new ≡ length tasks.now }
    ensures marked { (u : TaskValue) → (is_flagged tasks.now marks.new u || is_kept_by (same_task u) task (elems_of front.now ++ elems_of (take (place + 1) waiters.now)) (elems_of (drop (place + 1) waiters.now))) ≡ (is_flagged tasks.now marks.old u || is_kept_by (same_task u) task (elems_of front.now ++ elems_of (take place waiters.now)) (elems_of (drop place waiters.now))) }
{
    if let Some(spot) = waiters.get(place) {
        if is_same_task(task, spot.elem.task) {
            mark_front(tasks, front, spot.elem.ctl, marks);
            mark_front(tasks, &waiters[..place], spot.elem.ctl, marks);
        }
    }
}

/// Marks the tasks that keep a task away in this list.
fn mark_line(tasks: &[TaskId], line: &Line, task: TaskId, marks: &mut [bool])
    requires marks { length marks.old ≡ length tasks.now }
    requires named { IsNamedLine tasks.now line.now }
    ensures long { length marks.new ≡ length tasks.now }
    ensures marked { (u : TaskValue) → is_flagged tasks.now marks.new u ≡ (is_flagged tasks.now marks.old u || is_kept_by (same_task u) task (elems_of line.now.front) (elems_of line.now.waiters)) }
{
    let front = line.front.as_slice();
    let waiters = line.waiters.as_slice();
    for place in 0..waiters.len() {
        mark_at(tasks, front, waiters, place, task, marks);
    }
}

/// Marks the tasks that keep a task away in one of the lists.
fn mark_lines(tasks: &[TaskId], lines: &[Line], task: TaskId, marks: &mut [bool])
    requires marks { length marks.old ≡ length tasks.now }
    requires named { AreNamedLines tasks.now lines.now }
    ensures long { length marks.new ≡ length tasks.now }
    ensures marked { (u : TaskValue) → is_flagged tasks.now marks.new u ≡ (is_flagged tasks.now marks.old u || waits_among (same_task u) task lines.now) }
{
    for line in lines {
        mark_line(tasks, line, task, marks);
    }
}

/// The least of the tasks that are in both sets. The first becomes what is in both.
fn least_of_both(tasks: &[TaskId], flags: &mut [bool], others: &[bool]) -> Option<TaskId>
    requires long { length flags.old ≡ length tasks.now }
    requires others { length others.now ≡ length tasks.now }
    ensures least { result ≡ least (flagged tasks.now flags.new) }
    ensures both { (n : ℕ) → get_or flags.new n false ≡ (get_or flags.old n false && get_or others.now n false) }
    ensures long { length flags.new ≡ length flags.old }
{
    let _changed = meet(flags, others);
    least(tasks, flags)
}

/// The least member on which a task depends. The marks begin all down.
fn next_with(
    _rows: &[Row],
    numbered: &Numbered,
    members: &[bool],
    task: TaskId,
    marks: &mut [bool],
) -> Option<TaskId>
    requires long { length members.now ≡ length numbered.now.tasks }
    requires marks { marks.old ≡ replicate (length numbered.now.tasks) false }
    requires numbered { IsNumbered _rows.now numbered.now }
    requires apart { AreApart _rows.now }
    ensures { result ≡ next_of _rows.now (flagged numbered.now.tasks members.now) task }
{
    let tasks = numbered.tasks.as_slice();
    mark_lines(tasks, numbered.lines.as_slice(), task, marks);
    least_of_both(tasks, marks, members)
}

/// The least member on which a task depends.
fn next(
    alloc: Global,
    _rows: &[Row],
    numbered: &Numbered,
    members: &[bool],
    task: TaskId,
) -> Result<Option<TaskId>, NoMemory>
    requires long { length members.now ≡ length numbered.now.tasks }
    requires numbered { IsNumbered _rows.now numbered.now }
    requires apart { AreApart _rows.now }
    ensures { IfOk result (λ next. next ≡ next_of _rows.now (flagged numbered.now.tasks members.now) task) }
{
    let mut marks = all_flags(alloc, false, numbered.tasks.len())?;
    Ok(next_with(_rows, numbered, members, task, &mut marks))
}

/// Where a task stands among others.
fn place_in(past: &[TaskId], task: TaskId) -> Option<usize>
    ensures among { IfSome result (λ place. is_among past.now task ≡ true) }
    ensures from { IfSome result (λ place. drop place past.now ≡ from_task task past.now) }
    ensures within { IfSome result (λ place. place ≤ length past.now) }
    ensures none { IfNone result (is_among past.now task ≡ false) }
{
    for (place, other) in past.iter().enumerate() {
        if is_same_task(task, *other) {
            return Some(place);
        }
    }
    None
}

/// A list of these tasks.
fn listed(alloc: Global, tasks: &[TaskId]) -> Result<List<TaskId>, NoMemory>
    ensures { IfOk result (λ list. list ≡ tasks.now) }
{
    match Vec::from_slice(alloc, tasks) {
        Ok(tasks) => Ok(List::from_vec(tasks)),
        Err(_) => Err(NoMemory),
    }
}

/// The cycle to which the walk along the greatest set comes. The members begin as all tasks.
#[tactic(auto, using(crate::proofs::PassLemmas::walks))]
fn cycle_of(
    alloc: Global,
    _rows: &[Row],
    numbered: &Numbered,
    members: &mut [bool],
) -> Result<List<TaskId>, NoMemory>
    requires all { members.old ≡ replicate (length numbered.now.tasks) true }
    requires numbered { IsNumbered _rows.now numbered.now }
    requires apart { AreApart _rows.now }
    ensures { IfOk result (λ cycle. cycle ≡ reported_cycle _rows.now) }
{
    greatest(alloc, _rows, numbered, members)?;
    let mut past = List::new(alloc);
    let mut at = least(numbered.tasks.as_slice(), members);
    for _step in 0..numbered.tasks.len() + 1 {
        let Some(task) = at else {
            return Ok(List::new(alloc));
        };
        if let Some(place) = place_in(past.as_slice(), task) {
            return listed(alloc, &past.as_slice()[place..]);
        }
        past.push(task)?;
        at = next(alloc, _rows, numbered, members, task)?;
    }
    Ok(List::new(alloc))
}

/// The cycle to which the walk along the greatest set comes.
pub(crate) fn cycle(
    alloc: Global,
    _rows: &[Row],
    numbered: &Numbered,
) -> Result<List<TaskId>, NoMemory>
    requires numbered { IsNumbered _rows.now numbered.now }
    requires apart { AreApart _rows.now }
    ensures { IfOk result (λ cycle. cycle ≡ reported_cycle _rows.now) }
{
    let mut members = all_flags(alloc, true, numbered.tasks.len())?;
    cycle_of(alloc, _rows, numbered, &mut members)
}
