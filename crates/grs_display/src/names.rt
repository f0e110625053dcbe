//! The names of a deck, and the words that are made of them. A place without a name gives no byte.
ghost use Rattle.std.specs.Prelude.{◌≡◌, ◌++◌, [], map, OnOk, IfOk};
ghost use Rattle.grs_display.specs.Names.{names_of_tasks, names_of_jobs, names_in_jobs, names_of, name_at, name_in, task_in_job, task_word};

use grs_base::{List, NoMemory, TaskId};
use grs_wire::{Deck, JobDef, Name, Names, SystemDef, TaskDef};
use std::alloc::Global;

/// Puts the names of a job's tasks last.
fn put_task_names(alloc: Global, tasks: &[TaskDef], out: &mut List<Name>) -> Result<(), NoMemory>
    ensures { OnOk result (out.new ≡ out.old ++ names_of_tasks tasks.now) }
{
    for task in tasks {
        out.push(List::from_bytes(alloc, task.name.as_slice())?)?;
    }
    Ok(())
}

/// The names of a system's tasks, job by job.
fn task_names(alloc: Global, jobs: &[JobDef]) -> Result<List<Name>, NoMemory>
    ensures { IfOk result (λ names. names ≡ names_in_jobs jobs.now) }
{
    let mut names = List::new(alloc);
    for job in jobs {
        put_task_names(alloc, job.tasks.as_slice(), &mut names)?;
    }
    Ok(names)
}

/// The names of a system's jobs.
fn job_names(alloc: Global, jobs: &[JobDef]) -> Result<List<Name>, NoMemory>
    ensures { IfOk result (λ names. names ≡ names_of_jobs jobs.now) }
{
    let mut names = List::new(alloc);
    for job in jobs {
        names.push(List::from_bytes(alloc, job.name.as_slice())?)?;
    }
    Ok(names)
}

fn all_systems(alloc: Global, systems: &[SystemDef]) -> Result<List<Name>, NoMemory>
    ensures { IfOk result (λ names. names ≡ map (λ s. s.name) systems.now) }
{
    let mut names = List::new(alloc);
    for system in systems {
        names.push(List::from_bytes(alloc, system.name.as_slice())?)?;
    }
    Ok(names)
}

fn all_jobs(alloc: Global, systems: &[SystemDef]) -> Result<List<List<Name>>, NoMemory>
    ensures { IfOk result (λ names. names ≡ map (λ s. names_of_jobs s.jobs) systems.now) }
{
    let mut names = List::new(alloc);
    for system in systems {
        names.push(job_names(alloc, system.jobs.as_slice())?)?;
    }
    Ok(names)
}

fn all_tasks(alloc: Global, systems: &[SystemDef]) -> Result<List<List<Name>>, NoMemory>
    ensures { IfOk result (λ names. names ≡ map (λ s. names_in_jobs s.jobs) systems.now) }
{
    let mut names = List::new(alloc);
    for system in systems {
        names.push(task_names(alloc, system.jobs.as_slice())?)?;
    }
    Ok(names)
}

/// The names of the systems of a deck, of their jobs, and of their tasks, each at the place of its number.
#[tactic(auto, unfolding(crate::specs::Names::names_of))]
pub fn names_of(alloc: Global, deck: &Deck) -> Result<Names, NoMemory>
    ensures { IfOk result (λ names. names ≡ names_of deck.now) }
{
    let systems = deck.systems.as_slice();
    Ok(Names {
        systems: all_systems(alloc, systems)?,
        jobs: all_jobs(alloc, systems)?,
        tasks: all_tasks(alloc, systems)?,
    })
}

/// The name at a place, and no byte where there is none.
#[tactic(auto, unfolding(crate::specs::Names::name_at))]
pub fn name_at(names: &List<Name>, place: usize) -> &[u8]
    ensures { result.now ≡ name_at names.now place }
{
    if place < names.len() {
        names.get(place).as_slice()
    } else {
        &[]
    }
}

/// The name at a place of the list at a place, and no byte where there is none.
#[tactic(auto, unfolding(crate::specs::Names::name_in, crate::specs::Names::name_at))]
pub(crate) fn name_in(lists: &List<List<Name>>, at: usize, place: usize) -> &[u8]
    ensures { result.now ≡ name_in lists.now at place }
{
    if at < lists.len() {
        name_at(lists.get(at), place)
    } else {
        &[]
    }
}

/// Puts a task behind a text, by the names of its job and its own, or a part of it where memory is wanting.
#[tactic(auto, unfolding(crate::specs::Names::task_in_job))]
pub fn put_task_in_job(names: &Names, task: TaskId, out: &mut List<u8>) -> Result<(), NoMemory>
    ensures { OnOk result (out.new ≡ out.old ++ task_in_job names.now task) }
{
    let system = usize::from(task.system.0);
    out.append(name_in(&names.jobs, system, usize::from(task.job)))?;
    out.push(b'.')?;
    let own = name_in(&names.tasks, system, usize::from(task.task));
    out.append(own)
}

/// Puts a task behind a text, with the name of its system, or a part of it where memory is wanting.
#[tactic(auto, unfolding(crate::specs::Names::task_word))]
pub fn put_task(names: &Names, task: TaskId, out: &mut List<u8>) -> Result<(), NoMemory>
    ensures { OnOk result (out.new ≡ out.old ++ task_word names.now task) }
{
    out.append(name_at(&names.systems, usize::from(task.system.0)))?;
    out.push(b'.')?;
    put_task_in_job(names, task, out)
}
