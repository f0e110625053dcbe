//! The greatest set of tasks each of which depends on a task of the set. In each pass those go that depend on nobody
//! who is left.
ghost use Rattle.std.specs.Prelude.{◌≡◌, ◌||◌, true, false, length, replicate, OnOk, IfOk};
ghost use Rattle.grs_base.specs.declared.resource.TaskId.{TaskId as TaskValue};
ghost use Rattle.grs_analyze.specs.Depends.{AreApart, is_kept_by};
ghost use Rattle.grs_analyze.specs.Greatest.{supported, left_after, greatest};
ghost use Rattle.grs_analyze.specs.Numbered.{elems_of, IsNamedLine, AreNamedLines, waits_among, is_flagged, flagged, is_distinct, IsNumbered};

use super::flags::{all_flags, is_up, meet, put_up};
use super::front::front_of;
use super::numbered::{Line, Numbered};
use grs_base::{NoMemory, Row, TaskId};
use std::alloc::Global;

/// Marks the tasks that a member keeps away in this list.
fn mark_line(tasks: &[TaskId], members: &[bool], line: &Line, marks: &mut [bool])
    requires long { length members.now ≡ length tasks.now }
    requires marks { length marks.old ≡ length tasks.now }
    requires distinct { is_distinct tasks.now ≡ true }
    requires named { IsNamedLine tasks.now line.now }
    ensures long { length marks.new ≡ length tasks.now }
    ensures marked { (t : TaskValue) → is_flagged tasks.now marks.new t ≡ (is_flagged tasks.now marks.old t || is_kept_by (is_flagged tasks.now members.now) t (elems_of line.now.front) (elems_of line.now.waiters)) }
{
    let mut front = front_of(tasks, members, line.front.as_slice());
    for spot in line.waiters.as_slice() {
        let task = spot.elem.task;
        if front.keeps_away(spot.elem.ctl) {
            put_up(tasks, marks, spot.number, task);
        }
        front = front.with(spot.elem.ctl, is_up(tasks, members, spot.number, task));
    }
}

/// Marks the tasks that a member keeps away in one of the lists.
fn mark_lines(tasks: &[TaskId], members: &[bool], lines: &[Line], marks: &mut [bool])
    requires long { length members.now ≡ length tasks.now }
    requires marks { length marks.old ≡ length tasks.now }
    requires distinct { is_distinct tasks.now ≡ true }
    requires named { AreNamedLines tasks.now lines.now }
    ensures long { length marks.new ≡ length tasks.now }
    ensures marked { (t : TaskValue) → is_flagged tasks.now marks.new t ≡ (is_flagged tasks.now marks.old t || waits_among (is_flagged tasks.now members.now) t lines.now) }
{
    for line in lines {
        mark_line(tasks, members, line, marks);
    }
}

/// Leaves those members that depend on one of them, and tells whether one went. The marks begin all down.
#[tactic(auto, using(crate::proofs::FlagLemmas::fresh))]
fn pass_with(_rows: &[Row], numbered: &Numbered, members: &mut [bool], marks: &mut [bool]) -> bool
    requires long { length members.old ≡ length numbered.now.tasks }
    requires marks { marks.old ≡ replicate (length numbered.now.tasks) false }
    requires numbered { IsNumbered _rows.now numbered.now }
    requires apart { AreApart _rows.now }
    ensures long { length members.new ≡ length members.old }
    ensures left { flagged numbered.now.tasks members.new ≡ supported _rows.now (flagged numbered.now.tasks members.old) }
    ensures same { result ≡ false → members.new ≡ members.old }
{
    let tasks = numbered.tasks.as_slice();
    mark_lines(tasks, members, numbered.lines.as_slice(), marks);
    meet(members, marks)
}

/// Leaves those members that depend on one of them, and tells whether one went.
fn pass(
    alloc: Global,
    _rows: &[Row],
    numbered: &Numbered,
    members: &mut [bool],
) -> Result<bool, NoMemory>
    requires long { length members.old ≡ length numbered.now.tasks }
    requires numbered { IsNumbered _rows.now numbered.now }
    requires apart { AreApart _rows.now }
    ensures long { length members.new ≡ length members.old }
    ensures left { OnOk result (flagged numbered.now.tasks members.new ≡ supported _rows.now (flagged numbered.now.tasks members.old)) }
    ensures same { IfOk result (λ changed. changed ≡ false → members.new ≡ members.old) }
{
    let mut marks = all_flags(alloc, false, numbered.tasks.len())?;
    Ok(pass_with(_rows, numbered, members, &mut marks))
}

/// Makes passes until no member goes.
#[tactic(auto, using(crate::proofs::PassLemmas::passes))]
fn settle(
    alloc: Global,
    _rows: &[Row],
    numbered: &Numbered,
    members: &mut [bool],
) -> Result<(), NoMemory>
    requires long { length members.old ≡ length numbered.now.tasks }
    requires numbered { IsNumbered _rows.now numbered.now }
    requires apart { AreApart _rows.now }
    ensures long { length members.new ≡ length numbered.now.tasks }
    ensures left { OnOk result (flagged numbered.now.tasks members.new ≡ left_after _rows.now (length numbered.now.tasks) (flagged numbered.now.tasks members.old)) }
{
    let count = numbered.tasks.len();
    for _pass in 0..count {
        if !pass(alloc, _rows, numbered, members)? {
            return Ok(());
        }
    }
    Ok(())
}

/// Leaves of all tasks the greatest set of tasks each of which depends on one of the set.
#[tactic(auto, using(crate::proofs::PassLemmas::starts))]
pub(crate) fn greatest(
    alloc: Global,
    _rows: &[Row],
    numbered: &Numbered,
    members: &mut [bool],
) -> Result<(), NoMemory>
    requires all { members.old ≡ replicate (length numbered.now.tasks) true }
    requires numbered { IsNumbered _rows.now numbered.now }
    requires apart { AreApart _rows.now }
    ensures long { length members.new ≡ length numbered.now.tasks }
    ensures greatest { OnOk result (flagged numbered.now.tasks members.new ≡ greatest _rows.now) }
{
    settle(alloc, _rows, numbered, members)
}
