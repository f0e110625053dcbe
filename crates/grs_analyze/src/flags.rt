//! Sets of tasks, as a flag for each number. What the sets are of isn't known here.
ghost use Rattle.std.specs.Prelude.{◌≡◌, ◌<◌, ◌&&◌, ◌||◌, ℕ, true, false, length, get_or, replicate, slice_get, Some, drop, ◌+◌, IfOk};
ghost use Rattle.grs_base.specs.Same.{same_task};
ghost use Rattle.grs_base.specs.declared.resource.TaskId.{TaskId as TaskValue};
ghost use Rattle.grs_analyze.specs.Numbered.{is_flagged, flagged, is_distinct};
ghost use Rattle.grs_analyze.specs.Walk.{is_less, lesser, least_with, least};

use grs_base::{NoMemory, TaskId};
use std::alloc::Global;

/// So many flags, all up or all down.
pub(crate) fn all_flags(alloc: Global, up: bool, count: usize) -> Result<Vec<bool>, NoMemory>
    ensures { IfOk result (λ flags. flags.items ≡ replicate count up) }
{
    match Vec::from_elem(alloc, up, count) {
        Ok(flags) => Ok(flags),
        Err(_) => Err(NoMemory),
    }
}

/// Whether the flag of a task is up, by the task's number.
pub(crate) fn is_up(tasks: &[TaskId], flags: &[bool], number: usize, task: TaskId) -> bool
    requires long { length flags.now ≡ length tasks.now }
    requires named { slice_get tasks.now number ≡ Some task }
    requires distinct { is_distinct tasks.now ≡ true }
    ensures { result ≡ is_flagged tasks.now flags.now task }
{
    flags[number]
}

/// Puts the flag of a task up, by the task's number.
pub(crate) fn put_up(tasks: &[TaskId], flags: &mut [bool], number: usize, task: TaskId)
    requires long { length flags.old ≡ length tasks.now }
    requires named { slice_get tasks.now number ≡ Some task }
    ensures long { length flags.new ≡ length tasks.now }
    ensures up { (t : TaskValue) → is_flagged tasks.now flags.new t ≡ (same_task t task || is_flagged tasks.now flags.old t) }
{
    flags[number] = true;
}

/// Leaves those flags up that are up among others too, and tells whether one went down.
pub(crate) fn meet(flags: &mut [bool], others: &[bool]) -> bool
    requires long { length flags.old ≡ length others.now }
    ensures long { length flags.new ≡ length flags.old }
    ensures both { (n : ℕ) → get_or flags.new n false ≡ (get_or flags.old n false && get_or others.now n false) }
    ensures same { result ≡ false → flags.new ≡ flags.old }
{
    let mut changed = false;
    for n in 0..flags.len() {
        if flags[n] && !others[n] {
            flags[n] = false;
            changed = true;
        }
    }
    changed
}

/// Whether a task stands before another by its system, its job and itself.
fn is_less(t: TaskId, u: TaskId) -> bool
    ensures { result ≡ is_less t u }
{
    t.system.0 < u.system.0
        || t.system.0 == u.system.0 && (t.job < u.job || t.job == u.job && t.task < u.task)
}

/// The lesser of a task, where there is one, and another.
fn lesser(least: Option<TaskId>, task: TaskId) -> TaskId
    ensures { result ≡ lesser least task }
{
    match least {
        None => task,
        Some(least) => if is_less(task, least) { task } else { least },
    }
}

/// The least of those found and the task at a place, if its flag is up.
#[tactic(auto, using(crate::proofs::FlagLemmas::least_steps))]
fn least_at(
    found: Option<TaskId>,
    tasks: &[TaskId],
    flags: &[bool],
    number: usize,
) -> Option<TaskId>
    requires long { length flags.now ≡ length tasks.now }
    requires within { number < length tasks.now }
    ensures { least_with result (flagged (drop (number + 1) tasks.now) (drop (number + 1) flags.now)) ≡ least_with found (flagged (drop number tasks.now) (drop number flags.now)) }
{
    if !flags[number] {
        return found;
    }
    match tasks.get(number) {
        Some(task) => Some(lesser(found, *task)),
        None => found,
    }
}

/// The least of the tasks whose flags are up.
pub(crate) fn least(tasks: &[TaskId], flags: &[bool]) -> Option<TaskId>
    requires long { length flags.now ≡ length tasks.now }
    ensures { result ≡ least (flagged tasks.now flags.now) }
{
    let mut found = None;
    for number in 0..tasks.len() {
        found = least_at(found, tasks, flags, number);
    }
    found
}
