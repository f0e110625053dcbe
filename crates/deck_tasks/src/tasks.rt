//! The tasks of a deck, system by system and job by job.
ghost use Rattle.std.specs.Prelude.{◌≡◌, ◌≤◌, ◌+◌, ◌++◌, length, OnOk, IfOk};
ghost use Rattle.grs_base.specs.Limits.{most_jobs, most_tasks};
ghost use Rattle.grs_wire.specs.Decks.{task_count, Fits, IsDeck};
ghost use Rattle.deck_tasks.specs.Tasks.{tasks_in, tasks_from, tasks_of_systems, tasks_of};

use grs_base::{List, NoMemory, SysId, TaskId};
use grs_wire::{Deck, JobDef, SystemDef, TaskDef};
use std::alloc::Global;

/// Puts the tasks of a job last, of which the first has this place.
fn put_tasks(
    system: SysId,
    job: u16,
    first: u16,
    tasks: &[TaskDef],
    out: &mut List<TaskId>,
) -> Result<(), NoMemory>
    requires { first + length tasks.now ≤ most_tasks }
    ensures { OnOk result (out.new ≡ out.old ++ tasks_in system job first tasks.now) }
{
    let mut task = first;
    for _task in tasks {
        out.push(TaskId { system, job, task })?;
        task += 1;
    }
    Ok(())
}

/// Puts the tasks of a system's jobs last.
fn put_jobs(system: SysId, jobs: &[JobDef], out: &mut List<TaskId>) -> Result<(), NoMemory>
    requires jobs { length jobs.now ≤ most_jobs }
    requires tasks { task_count jobs.now ≤ most_tasks }
    ensures { OnOk result (out.new ≡ out.old ++ tasks_from system 0 0 jobs.now) }
{
    let mut first = 0;
    for (job, def) in jobs.iter().enumerate() {
        put_tasks(system, job as u16, first, def.tasks.as_slice(), out)?;
        first += def.tasks.len() as u16;
    }
    Ok(())
}

/// The tasks of a system's jobs.
pub fn tasks_of_system(
    alloc: Global,
    system: SysId,
    jobs: &[JobDef],
) -> Result<List<TaskId>, NoMemory>
    requires jobs { length jobs.now ≤ most_jobs }
    requires tasks { task_count jobs.now ≤ most_tasks }
    ensures { IfOk result (λ tasks. tasks ≡ tasks_from system 0 0 jobs.now) }
{
    let mut tasks = List::new(alloc);
    put_jobs(system, jobs, &mut tasks)?;
    Ok(tasks)
}

/// The tasks of these systems, of which the first is the deck's first.
fn tasks_of_systems(alloc: Global, systems: &[SystemDef]) -> Result<List<TaskId>, NoMemory>
    requires { Fits systems.now }
    ensures { IfOk result (λ tasks. tasks ≡ tasks_of_systems 0 systems.now) }
{
    let mut tasks = List::new(alloc);
    for (place, def) in systems.iter().enumerate() {
        put_jobs(SysId(place as u8), def.jobs.as_slice(), &mut tasks)?;
    }
    Ok(tasks)
}

/// The tasks of a deck.
pub fn tasks_of(alloc: Global, deck: &Deck) -> Result<List<TaskId>, NoMemory>
    requires { IsDeck deck.now }
    ensures { IfOk result (λ tasks. tasks ≡ tasks_of deck.now) }
{
    tasks_of_systems(alloc, deck.systems.as_slice())
}
