//! A system's elements leave a table, and who got control is told.
ghost use Rattle.std.specs.Prelude.{◌≡◌, length, OnOk};
ghost use Rattle.grs_base.specs.Rows.{rows_of};
ghost use Rattle.grs_base.specs.State.{remove_state};
ghost use Rattle.system_purge.specs.Purge as purge;

use freed_owners::freed;
use grs_base::{NoMemory, Queues, Res, Row, SysId, TaskId};
use queue_table::Table;
use std::alloc::Global;
use task_state::{Tasks, tell_new};

/// Tells the tasks that get control when the elements of a system leave these lists, list by list.
#[tactic(auto, unfolding(crate::specs::Purge::tell_freed))]
fn tell_freed(alloc: Global, tasks: &mut Tasks, system: SysId, rows: &[Row]) -> Result<(), NoMemory>
    ensures step { OnOk result (tasks.new ≡ purge.tell_freed tasks.old system.0 rows.now) }
    ensures system { tasks.new.system ≡ tasks.old.system }
    ensures count { length tasks.new.tasks ≡ length tasks.old.tasks }
{
    let mut rest = rows;
    while let Some((row, tail)) = rest.split_first() {
        let owners = freed(alloc, system, &row.res, row.elems.as_slice())?;
        tell_new(tasks, Some(&row.res), owners.as_slice())?;
        rest = tail;
    }
    Ok(())
}

/// Tells tasks that they got control, each of its resource, one after the other. Tasks of other systems are passed over, and
/// who was told before is told nothing. After NoMemory the system whose tasks these are is to be given up.
#[tactic(auto, unfolding(crate::specs::Purge::tell_each, task_state::specs::Replies::tell_new, task_state::specs::Replies::tell_all))]
pub fn tell_each(tasks: &mut Tasks, owners: &[(TaskId, Res)]) -> Result<(), NoMemory>
    ensures step { OnOk result (tasks.new ≡ purge.tell_each tasks.old owners.now) }
    ensures system { tasks.new.system ≡ tasks.old.system }
    ensures count { length tasks.new.tasks ≡ length tasks.old.tasks }
{
    let mut rest = owners;
    while let Some((owner, tail)) = rest.split_first() {
        tell_new(tasks, Some(&owner.1), &[owner.0])?;
        rest = tail;
    }
    Ok(())
}

/// Processes that a system was removed: the elements of its tasks leave every list of a Systems resource, and the tasks
/// that own by what is left and didn't before are told control, resources in the order of their names, and the tasks of one
/// list in its order. Tasks of other systems are passed over. After NoMemory the system whose table and tasks these are is to
/// be given up.
pub fn remove<Q: Queues>(
    alloc: Global,
    table: &mut Table<Q>,
    tasks: &mut Tasks,
    target: SysId,
) -> Result<(), NoMemory>
    ensures table { OnOk result (table.new.elements ≡ remove_state table.old.elements target.0) }
    ensures tasks { OnOk result (tasks.new ≡ purge.tell_freed tasks.old target.0 (rows_of table.old.elements)) }
    ensures system { tasks.new.system ≡ tasks.old.system }
    ensures count { length tasks.new.tasks ≡ length tasks.old.tasks }
{
    let rows = table.rows(alloc)?;
    table.remove_system(target);
    tell_freed(alloc, tasks, target, rows.as_slice())
}
