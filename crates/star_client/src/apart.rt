//! Whether no task stands twice in a list. Nothing here knows of requests.
ghost use Rattle.std.specs.Prelude.{◌≡◌, ◌++◌, ◌∷◌, [], true, not, IfOk};
ghost use Rattle.std.specs.List.{list_any};
ghost use Rattle.grs_base.specs.Lists.{is_apart};
ghost use Rattle.grs_base.specs.Same.{same_task};

use grs_base::{Elem, NoMemory, TaskId};
use indexmap::IndexSet;
use std::alloc::Global;

/// Puts a task into a set, and tells whether it wasn't there.
fn is_new(tasks: &mut IndexSet<TaskId>, task: TaskId) -> Result<bool, NoMemory>
    ensures new { IfOk result (λ new. new ≡ not (list_any (same_task task) tasks.old.keys)) }
    ensures tasks { IfOk result (λ new. new ≡ true → tasks.new.keys ≡ tasks.old.keys ++ task ∷ []) }
{
    match tasks.insert_full(task) {
        Ok((_, new)) => Ok(new),
        Err(_) => Err(NoMemory),
    }
}

/// Whether no two elements are of one task.
pub(crate) fn are_apart(alloc: Global, elems: &[Elem]) -> Result<bool, NoMemory>
    ensures { IfOk result (λ apart. apart ≡ is_apart elems.now) }
{
    let mut tasks = IndexSet::new(alloc);
    for elem in elems {
        if !is_new(&mut tasks, elem.task)? {
            return Ok(false);
        }
    }
    Ok(true)
}
