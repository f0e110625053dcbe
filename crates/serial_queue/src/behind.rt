//! Who gets control behind an element that leaves a list.
ghost use Rattle.std.specs.Prelude.{◌≡◌, ◌≤◌, length, IfOk};
ghost use Rattle.grs_base.specs.Behind.{shared_tasks, owner_tasks, tasks_behind as tasks_behind_place};
ghost use Rattle.grs_base.specs.Lists.{shared_front};

use grs_base::{Ctl, Elem, List, NoMemory, TaskId};
use std::alloc::Global;

/// The tasks of the shared elements with which a list begins.
fn shared_in(alloc: Global, elems: &[Elem]) -> Result<List<TaskId>, NoMemory>
    ensures { IfOk result (λ tasks. tasks ≡ shared_tasks elems.now) }
{
    let mut tasks = List::new(alloc);
    for elem in elems {
        match elem.ctl {
            Ctl::E => return Ok(tasks),
            Ctl::S => tasks.push(elem.task)?,
        }
    }
    Ok(tasks)
}

/// The tasks that own a list.
fn owners_in(alloc: Global, elems: &[Elem]) -> Result<List<TaskId>, NoMemory>
    ensures { IfOk result (λ tasks. tasks ≡ owner_tasks elems.now) }
{
    match elems {
        [] => Ok(List::new(alloc)),
        [first, ..] => match first.ctl {
            Ctl::E => {
                let mut tasks = List::new(alloc);
                tasks.push(first.task)?;
                Ok(tasks)
            }
            Ctl::S => shared_in(alloc, elems),
        },
    }
}

/// The tasks that get control when the element at a place of a list leaves, where so many are shared before the first
/// exclusive one.
pub fn tasks_behind(
    alloc: Global,
    elems: &[Elem],
    front: usize,
    place: usize,
) -> Result<List<TaskId>, NoMemory>
    requires front { front ≡ shared_front elems.now }
    requires place { place ≤ length elems.now }
    ensures { IfOk result (λ tasks. tasks ≡ tasks_behind_place elems.now place) }
{
    if place == elems.len() {
        return Ok(List::new(alloc));
    }
    if place == 0 && front <= 1 {
        owners_in(alloc, &elems[1..])
    } else if place == front {
        shared_in(alloc, &elems[place + 1..])
    } else {
        Ok(List::new(alloc))
    }
}
