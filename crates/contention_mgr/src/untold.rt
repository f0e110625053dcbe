//! Which owner of another system is told first. The marks say on which resources one is still to be told; the lists say
//! in which order.
ghost use Rattle.std.specs.Prelude.{◌≡◌, true, None, IfSome};
ghost use Rattle.std.specs.Ordering.{is_lt};
ghost use Rattle.grs_base.specs.ResOrder.{res_order};
ghost use Rattle.grs_base.specs.declared.resource.TaskId.{TaskId as TaskValue};
ghost use Rattle.contention_mgr.specs.Marks.{mark_at, mark_in};
ghost use Rattle.contention_mgr.specs.Untold.{is_to_tell, sooner_number, better_of, best_with, least_from, first_to_tell};

use crate::marks::{Mark, Marks, Spot};
use grs_base::{Elem, Res, SysId, TaskId};
use indexmap::IndexMap;
use std::cmp::Ordering;

/// Whether a task of another system is still to be told, by the mark of its element.
fn to_tell(home: SysId, task: TaskId, mark: Option<Mark>) -> bool
    ensures { result ≡ is_to_tell home.0 task mark }
{
    match mark {
        Some(mark) => mark.untold && home.0 != task.system.0,
        None => false,
    }
}

/// Whether a resource is shown before another.
fn is_before(a: &Res, b: &Res) -> bool
    ensures { result ≡ is_lt (res_order a.now b.now) }
{
    match a.order(b) {
        Ordering::Less => true,
        _ => false,
    }
}

/// Whether the resource of one number is shown before that of another.
fn is_sooner(names: &IndexMap<Res, usize>, a: usize, b: usize) -> bool
    ensures { result ≡ sooner_number names.now.entries a b }
{
    match names.get_index(a) {
        Some((p, _)) => match names.get_index(b) {
            Some((q, _)) => is_before(p, q),
            None => false,
        },
        None => false,
    }
}

/// The better of the best number so far and another.
fn better(names: &IndexMap<Res, usize>, best: Option<usize>, number: usize) -> usize
    ensures { result ≡ better_of names.now.entries best number }
{
    match best {
        Some(k) => {
            if is_sooner(names, number, k) {
                number
            } else {
                k
            }
        }
        None => number,
    }
}

/// The best number once one mark more was seen.
fn with_mark(
    names: &IndexMap<Res, usize>,
    home: SysId,
    best: Option<usize>,
    spot: Spot,
    mark: Mark,
) -> Option<usize>
    ensures { result ≡ best_with home.0 names.now.entries best (spot, mark) }
{
    if to_tell(home, spot.task, Some(mark)) {
        Some(better(names, best, spot.number))
    } else {
        best
    }
}

/// The number of the resource that is shown first among those on which a task of another system is still to be told.
pub(crate) fn least_number(
    names: &IndexMap<Res, usize>,
    marks: &IndexMap<Spot, Mark>,
    home: SysId,
) -> Option<usize>
    ensures least { result ≡ least_from home.0 names.now.entries None marks.now.entries }
    ensures there { IfSome result (λ n. (t : TaskValue) × (is_to_tell home.0 t (mark_at marks.now.entries n t) ≡ true)) }
{
    let mut best = None;
    for i in 0..marks.len() {
        match marks.get_index(i) {
            Some((spot, mark)) => best = with_mark(names, home, best, *spot, *mark),
            None => unreachable!(),
        }
    }
    best
}

/// The first task of a list that is still to be told that it owns this resource.
pub(crate) fn first_in(marks: &Marks, home: SysId, res: &Res, elems: &[Elem]) -> Option<TaskId>
    ensures { result ≡ first_to_tell home.0 (mark_in marks.now.names.entries marks.now.marks.entries) res.now elems.now }
{
    let number = marks.number_of(res);
    let mut rest = elems;
    'elems: while let Some((elem, tail)) = rest.split_first() {
        if to_tell(home, elem.task, marks.get(number, elem.task)) {
            return Some(elem.task);
        }
        rest = tail;
    }
    None
}
