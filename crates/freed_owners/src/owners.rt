//! The elements that are left, and who owns by them.
ghost use Rattle.std.specs.Prelude.{◌≡◌, filter, IfOk};
ghost use Rattle.std.specs.List.{list_any};
ghost use Rattle.grs_base.specs.Lists as lists;
ghost use Rattle.grs_base.specs.Same.{same_task};
ghost use Rattle.grs_base.specs.State as states;
ghost use Rattle.grs_base.specs.State.{is_of_other};
ghost use Rattle.freed_owners.specs.Freed as by_list;

use grs_base::{Elem, List, NoMemory, Res, SysId, TaskId, is_same_task};
use ret_codes::owners_among;
use std::alloc::Global;

/// Whether a resource is one of the whole complex.
fn is_systems(res: &Res) -> bool
    ensures { result ≡ states.is_systems res.now }
{
    matches!(res, Res::Systems { .. })
}

/// The elements of a list that are of tasks of other systems.
fn others(alloc: Global, elems: &[Elem], system: SysId) -> Result<List<Elem>, NoMemory>
    ensures { IfOk result (λ left. left ≡ filter (is_of_other system.0) elems.now) }
{
    let mut left = List::new(alloc);
    for elem in elems {
        if elem.task.system.0 != system.0 {
            left.push(*elem)?;
        }
    }
    Ok(left)
}

/// Whether one of these elements is of a task.
fn has_task(elems: &[Elem], task: TaskId) -> bool
    ensures { result ≡ list_any (λ e. same_task task e.task) elems.now }
{
    elems.iter().any(|elem| is_same_task(task, elem.task))
}

/// Whether a task owns by a list.
fn owns(elems: &[Elem], task: TaskId) -> bool
    ensures { result ≡ lists.owns elems.now task }
{
    has_task(&elems[..owners_among(elems)], task)
}

/// The tasks that own by the list afterwards and didn't by the list before.
fn newcomers(alloc: Global, before: &[Elem], after: &[Elem]) -> Result<List<TaskId>, NoMemory>
    ensures { IfOk result (λ tasks. tasks ≡ by_list.newcomers before.now after.now) }
{
    let mut tasks = List::new(alloc);
    let owning = &after[..owners_among(after)];
    for elem in owning {
        if !owns(before, elem.task) {
            tasks.push(elem.task)?;
        }
    }
    Ok(tasks)
}

/// The tasks that get control of a resource when the elements of a system's tasks leave its list, in the order of the list.
/// They leave only lists of the whole complex. NoMemory comes where there is none for the copies.
pub fn freed(
    alloc: Global,
    system: SysId,
    res: &Res,
    elems: &[Elem],
) -> Result<List<TaskId>, NoMemory>
    ensures { IfOk result (λ tasks. tasks ≡ by_list.freed system.0 res.now elems.now) }
{
    if !is_systems(res) {
        return Ok(List::new(alloc));
    }
    let left = others(alloc, elems, system)?;
    newcomers(alloc, elems, left.as_slice())
}
