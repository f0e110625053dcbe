//! Who gets control when a removed system's elements leave lists, and those of one system in the order in which resources
//! are shown.
ghost use Rattle.std.specs.Prelude.{◌≡◌, ◌++◌, map, IfOk, OnOk};
ghost use Rattle.std.specs.List.{flat_map};
ghost use Rattle.freed_owners.specs.Freed.{freed as freed_by};
ghost use Rattle.contention_mgr.specs.Loses.{own_freed, by_name, own_in_order};

use freed_owners::freed;
use grs_base::{List, NoMemory, Res, Row, SysId, TaskId};
use std::alloc::Global;

/// The tasks that get control of the resources of rows, row by row, when the elements of a system leave them.
pub(crate) fn freed_rows(
    alloc: Global,
    target: SysId,
    rows: &[Row],
) -> Result<List<(Res, List<TaskId>)>, NoMemory>
    ensures { IfOk result (λ all. all ≡ map (λ x. (x.res, freed_by target.0 x.res x.elems)) rows.now) }
{
    let mut all = List::with_room(alloc, rows.len())?;
    for row in rows {
        let tasks = freed(alloc, target, &row.res, row.elems.as_slice())?;
        all.push((row.res.copy(alloc)?, tasks))?;
    }
    Ok(all)
}

/// Puts those of some tasks that are of a system behind others, each with the resource.
fn add_own(
    alloc: Global,
    owners: &mut List<(TaskId, Res)>,
    system: SysId,
    res: &Res,
    tasks: &[TaskId],
) -> Result<(), NoMemory>
    ensures { OnOk result (owners.new ≡ owners.old ++ own_freed system.0 (res.now, tasks.now)) }
{
    for task in tasks {
        if system.0 == task.system.0 {
            owners.push((*task, res.copy(alloc)?))?;
        }
    }
    Ok(())
}

/// The same of several resources, one after the other.
fn add_all_own(
    alloc: Global,
    owners: &mut List<(TaskId, Res)>,
    system: SysId,
    freed: &[(Res, List<TaskId>)],
) -> Result<(), NoMemory>
    ensures { OnOk result (owners.new ≡ owners.old ++ flat_map (own_freed system.0) freed.now) }
{
    for one in freed {
        add_own(alloc, owners, system, &one.0, one.1.as_slice())?;
    }
    Ok(())
}

/// Tasks with resources in the order in which their resources are shown.
fn by_name(owners: List<(TaskId, Res)>) -> Result<List<(TaskId, Res)>, NoMemory>
    ensures { IfOk result (λ sorted. sorted ≡ by_name owners) }
{
    let mut owners = owners.into_vec();
    match owners.sort_by(|a, b| a.1.order(&b.1)) {
        Ok(()) => Ok(List::from_vec(owners)),
        Err(_) => Err(NoMemory),
    }
}

/// The tasks of a system that get control by the lists of several entries, each with the resource, by the order of
/// resources. Only the resources of these tasks are compared.
pub(crate) fn own_in_order(
    alloc: Global,
    system: SysId,
    all: &[List<(Res, List<TaskId>)>],
) -> Result<List<(TaskId, Res)>, NoMemory>
    ensures { IfOk result (λ owners. owners ≡ own_in_order system.0 all.now) }
{
    let mut owners = List::new(alloc);
    for freed in all {
        add_all_own(alloc, &mut owners, system, freed.as_slice())?;
    }
    by_name(owners)
}
