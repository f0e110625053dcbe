//! What a system's own tasks have on record of a lock entry.
ghost use Rattle.std.specs.Prelude.{◌≡◌, ◌≢◌, ◌++◌, map, IfOk, OnOk};
ghost use Rattle.system_purge.specs.Gather as gather;

use super::gather::part_of_entry;
use grs_base::{List, NoMemory, TaskId};
use grs_wire::PartRec;
use std::alloc::Global;
use task_state::{Rec, Records, TaskState, Tasks};

/// A record of a task, as a part tells of it.
fn part_rec(alloc: Global, task: TaskId, rec: &Rec) -> Result<PartRec, NoMemory>
    ensures { IfOk result (λ told. told ≡ gather.part_rec task rec.now) }
{
    Ok(PartRec {
        res: rec.res.copy(alloc)?,
        task,
        ctl: rec.ctl,
        rank: rec.rank,
        told: rec.told,
    })
}

/// Puts what a task has on record behind others.
fn add_records(
    alloc: Global,
    all: &mut List<PartRec>,
    task: TaskId,
    records: &Records,
) -> Result<(), NoMemory>
    ensures { OnOk result (all.new ≡ all.old ++ map (gather.part_rec task) records.now) }
{
    for rec in records.iter() {
        all.push(part_rec(alloc, task, rec)?)?;
    }
    Ok(())
}

/// What tasks have on record, each of which has one of these names.
fn records_of(
    alloc: Global,
    names: &[TaskId],
    states: &[TaskState],
) -> Result<List<PartRec>, NoMemory>
    ensures { IfOk result (λ all. all ≡ gather.records_of names.now states.now) }
{
    let mut all = List::new(alloc);
    let mut rest = names;
    let mut left = states;
    while let Some((name, tail)) = rest.split_first() {
        let Some((state, others)) = left.split_first() else {
            return Ok(all);
        };
        add_records(alloc, &mut all, *name, &state.records)?;
        rest = tail;
        left = others;
    }
    Ok(all)
}

/// What tasks, which have these names, have on record of a lock entry, where there are so many: what their system sends to
/// the entry's new manager as its part, and what such a manager itself gathers with the parts of others.
pub fn part_of(
    alloc: Global,
    tasks: &Tasks,
    names: &[TaskId],
    entries: u32,
    entry: u32,
) -> Result<List<PartRec>, NoMemory>
    requires { entries ≢ 0 }
    ensures { IfOk result (λ part. part ≡ gather.part_of entries entry names.now tasks.now) }
{
    let all = records_of(alloc, names, tasks.all())?;
    Ok(part_of_entry(all, entries, entry, tasks.system()))
}
