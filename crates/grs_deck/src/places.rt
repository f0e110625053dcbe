//! Where systems, jobs and tasks of a deck stand. The last of each is the one that a statement behind
//! it belongs to.
ghost use Rattle.std.specs.Prelude.{◌≡◌, ◌<◌, ◌≤◌, length, IfOk, IfSome};
ghost use Rattle.grs_base.specs.Limits.{most_tasks};
ghost use Rattle.grs_wire.specs.Decks.{task_count, IsWithin, Fits};
ghost use Rattle.grs_deck.specs.Places.{system_place, job_place, task_place, name_now, desk_now, jobs_now, tasks_now, system_at, task_in, choice_of, event_of, event_in, place_in, seen};

use deck_form::{EventAct, GivenOrder, Stmt, SystemNames};
use grs_base::{NoMemory, SysId, TaskId};
use grs_wire::{Choice, Desk, Event, JobDef, SystemDef, TaskDef};
use std::alloc::Global;

/// Where the first system of this name stands.
#[tactic(auto, unfolding(crate::specs::Places::system_place))]
pub fn system_place(systems: &[SystemDef], name: &[u8]) -> Option<usize>
    ensures at { result ≡ system_place systems.now name.now }
    ensures within { IfSome result (λ i. i < length systems.now) }
{
    systems.iter().position(|s| s.name.as_slice() == name)
}

/// Where the first job of this name stands among the jobs of a system.
#[tactic(auto, unfolding(crate::specs::Places::job_place))]
pub fn job_place(jobs: &[JobDef], name: &[u8]) -> Option<usize>
    ensures at { result ≡ job_place jobs.now name.now }
    ensures within { IfSome result (λ i. i < length jobs.now) }
{
    jobs.iter().position(|j| j.name.as_slice() == name)
}

/// Where the first task of this name stands among the tasks of a job.
#[tactic(auto, unfolding(crate::specs::Places::task_place))]
pub fn task_place(tasks: &[TaskDef], name: &[u8]) -> Option<usize>
    ensures at { result ≡ task_place tasks.now name.now }
    ensures within { IfSome result (λ i. i < length tasks.now) }
{
    tasks.iter().position(|t| t.name.as_slice() == name)
}

/// The name of the last system.
pub fn name_now(systems: &[SystemDef]) -> &[u8]
    ensures { result.now ≡ name_now systems.now }
{
    match systems.split_last() {
        None => &[],
        Some((s, _)) => s.name.as_slice(),
    }
}

/// The commands at the desk of the last system.
pub fn desk_now(systems: &[SystemDef]) -> &[Desk]
    ensures { result.now ≡ desk_now systems.now }
{
    match systems.split_last() {
        None => &[],
        Some((s, _)) => s.desk.as_slice(),
    }
}

/// The jobs of the last system.
pub fn jobs_now(systems: &[SystemDef]) -> &[JobDef]
    ensures { result.now ≡ jobs_now systems.now }
{
    match systems.split_last() {
        None => &[],
        Some((s, _)) => s.jobs.as_slice(),
    }
}

/// The tasks of the last job.
pub fn tasks_now(jobs: &[JobDef]) -> &[TaskDef]
    ensures { result.now ≡ tasks_now jobs.now }
{
    match jobs.split_last() {
        None => &[],
        Some((j, _)) => j.tasks.as_slice(),
    }
}

/// How many tasks the jobs have together.
pub fn task_count(jobs: &[JobDef]) -> usize
    requires { task_count jobs.now ≤ most_tasks }
    ensures { result ≡ task_count jobs.now }
{
    let mut count = 0;
    let mut rest = jobs;
    while let Some((job, tail)) = rest.split_first() {
        count += job.tasks.len();
        rest = tail;
    }
    count
}

/// The system of this name, and its number, if there is one: the first where several have it.
pub fn system_at<'a>(systems: &'a [SystemDef], name: &[u8]) -> Option<(SysId, &'a SystemDef)>
    requires { Fits systems.now }
    ensures at { seen (λ x. (x.0, x.1.now)) result ≡ system_at systems.now name.now }
    ensures within { IfSome result (λ x. IsWithin x.1.now) }
{
    let place = system_place(systems, name)?;
    let found = systems.get(place)?;
    Some((SysId(place as u8), found))
}

/// The task of a job's name and its own among the tasks of a system, which has this number.
pub fn task_in(id: SysId, found: &SystemDef, job: &[u8], task: &[u8]) -> Option<TaskId>
    requires { IsWithin found.now }
    ensures { result ≡ task_in id found.now job.now task.now }
{
    let jobs = found.jobs.as_slice();
    let j = job_place(jobs, job)?;
    let held = jobs.get(j)?;
    let k = task_place(held.tasks.as_slice(), task)?;
    let before = task_count(&jobs[..j]);
    Some(TaskId {
        system: id,
        job: j as u16,
        task: (before + k) as u16,
    })
}

/// What a system does, where each name that it says is known.
fn choice_of(
    systems: &[SystemDef],
    id: SysId,
    found: &SystemDef,
    act: &EventAct<'_>,
) -> Option<Choice>
    requires systems { Fits systems.now }
    requires found { IsWithin found.now }
    ensures { result ≡ choice_of systems.now id found.now act.now }
{
    match act {
        EventAct::Task { job, task } => Some(Choice::Task(task_in(
            id,
            found,
            job.bytes(),
            task.bytes(),
        )?)),
        EventAct::Turn => Some(Choice::Turn),
        EventAct::Send { job, task } => Some(Choice::Send(task_in(
            id,
            found,
            job.bytes(),
            task.bytes(),
        )?)),
        EventAct::Take => Some(Choice::Take),
        EventAct::Settle => Some(Choice::Settle),
        EventAct::Tell(entry) => Some(Choice::Tell(*entry)),
        EventAct::Part(entry) => Some(Choice::Part(*entry)),
        EventAct::Leave(entry) => Some(Choice::Leave(*entry)),
        EventAct::Switch => Some(Choice::Switch),
        EventAct::Purge(name) => {
            let (other, _) = system_at(systems, name.bytes())?;
            if other.0 == id.0 {
                None
            } else {
                Some(Choice::Purge(other))
            }
        }
        EventAct::Rest => Some(Choice::Rest),
    }
}

/// The event of an event line, where each name that it says is known.
fn event_of(systems: &[SystemDef], system: &[u8], act: &EventAct<'_>) -> Option<Event>
    requires { Fits systems.now }
    ensures { result ≡ event_of systems.now system.now act.now }
{
    let (id, found) = system_at(systems, system)?;
    let choice = choice_of(systems, id, found, act)?;
    Some(Event { system: id, choice })
}

/// The event that a statement is: that of an event line, where each name that it says is known.
pub fn event_in(systems: &[SystemDef], st: &Stmt<'_>) -> Option<Event>
    requires { Fits systems.now }
    ensures { result ≡ event_in systems.now st.now }
{
    match st {
        Stmt::Event { system, act } => event_of(systems, system.bytes(), act),
        _ => None,
    }
}

/// Where the name that a command says stands among these for the first time.
pub fn place_in(
    names: &mut SystemNames<'_>,
    alloc: Global,
    st: &Stmt<'_>,
) -> Result<Option<usize>, NoMemory>
    ensures place { IfOk result (λ place. place ≡ place_in names.old st.now) }
    ensures same { names.new ≡ names.old }
{
    let Stmt::Command(command) = st else {
        return Ok(None);
    };
    match &command.order {
        GivenOrder::Star => Ok(None),
        GivenOrder::Vary(name) => names.place(alloc, name.bytes()),
    }
}
