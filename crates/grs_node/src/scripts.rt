//! Which task has which lines. The lines stay in the deck.
ghost use Rattle.std.specs.Prelude.{◌≡◌, ◌≤◌, ◌++◌, map, length, slice_get, is_some, sum, option_copied, All, IfOk, IfSome};
ghost use Rattle.grs_base.specs.Limits.{most_lines, most_tasks};
ghost use Rattle.grs_wire.specs.Decks.{IsBounded};
ghost use Rattle.grs_legal.specs.Asks as asks;
ghost use Rattle.grs_legal.specs.Asks.{lines_in, scripts_in, scripts_from};
ghost use Rattle.grs_node.specs.Names.{names_from};
ghost use Rattle.grs_node.specs.Node.{is_of_deck};

use grs_base::{Line, List, NoMemory, SysId, TaskId};
use grs_wire::{Deck, JobDef, SystemDef, TaskDef};
use std::alloc::Global;
use std::marker::Model;

/// The lines of a task, as many as a deck may have at most, with the place of its job.
#[derive(Drop)]
pub(crate) struct Script<'d> {
    job: usize,
    lines: &'d List<Line>,
}

impl<'d> Model for Script<'d> {
    ghost use Rattle.std.specs.Prelude.{◌≤◌, length};
    ghost use Rattle.grs_base.specs.Limits.{most_lines};
    ghost use Rattle.grs_legal.specs.Asks as asks;

    ghost Value = { asks.Script };

    ghost view = { λ a. record { job = a.job; lines = a.lines.now } };

    ghost invariant = { λ a. length a.lines.now ≤ most_lines };
}

/// Puts the scripts of a job's tasks behind others.
fn add_job<'d>(
    mut scripts: Vec<Script<'d>>,
    job: usize,
    tasks: &'d [TaskDef],
) -> Result<Vec<Script<'d>>, NoMemory>
    requires { All (λ t. length t.lines ≤ most_lines) tasks.now }
    ensures { IfOk result (λ all. all.items ≡ scripts.entry.items ++ scripts_in job tasks.now) }
{
    for task in tasks {
        let script = Script {
            job,
            lines: &task.lines,
        };
        if scripts.push(script).is_err() {
            return Err(NoMemory);
        }
    }
    Ok(scripts)
}

/// The scripts of the tasks of these jobs.
fn scripts_of_jobs(alloc: Global, jobs: &[JobDef]) -> Result<Vec<Script<'_>>, NoMemory>
    requires { All (λ j. All (λ t. length t.lines ≤ most_lines) j.tasks) jobs.now }
    ensures { IfOk result (λ all. all.items ≡ scripts_from 0 jobs.now) }
{
    let mut scripts = Vec::new(alloc);
    for (place, job) in jobs.iter().enumerate() {
        scripts = add_job(scripts, place, job.tasks.as_slice())?;
    }
    Ok(scripts)
}

/// The numbers of tasks of these jobs.
fn sizes_of_jobs(alloc: Global, jobs: &[JobDef]) -> Result<Vec<u32>, NoMemory>
    requires { All (λ j. length j.tasks ≤ most_tasks) jobs.now }
    ensures { IfOk result (λ sizes. sizes.items ≡ map (λ j. length j.tasks) jobs.now) }
{
    let mut sizes = Vec::new(alloc);
    for job in jobs {
        if sizes.push(job.tasks.len() as u32).is_err() {
            return Err(NoMemory);
        }
    }
    Ok(sizes)
}

/// What the deck says of a system, if it has it.
pub(crate) fn system_at(deck: &Deck, system: SysId) -> Option<&SystemDef>
    ensures { option_copied result ≡ slice_get deck.now.systems system.0 }
{
    deck.systems.as_slice().get(system.0 as usize)
}

/// The scripts of the tasks of a system.
#[tactic(auto, using(grs_wire::proofs::DeckLaws::parts))]
pub(crate) fn scripts_of(
    alloc: Global,
    deck: &Deck,
    system: SysId,
) -> Result<List<Script<'_>>, NoMemory>
    requires { IsBounded deck.now }
    ensures { IfOk result (λ scripts. scripts ≡ asks.scripts_of deck.now system.0) }
{
    match system_at(deck, system) {
        None => Ok(List::new(alloc)),
        Some(def) => Ok(List::from_vec(scripts_of_jobs(alloc, def.jobs.as_slice())?)),
    }
}

/// The numbers of tasks of the jobs of a system.
#[tactic(auto, using(grs_wire::proofs::DeckLaws::parts, crate::proofs::ScriptCounts::counts))]
pub(crate) fn sizes_of(alloc: Global, deck: &Deck, system: SysId) -> Result<Vec<u32>, NoMemory>
    requires { IsBounded deck.now }
    ensures { IfOk result (λ sizes. sum sizes.items ≡ length (asks.scripts_of deck.now system.0)) }
{
    match system_at(deck, system) {
        None => Ok(Vec::new(alloc)),
        Some(def) => sizes_of_jobs(alloc, def.jobs.as_slice()),
    }
}

/// The number of a task or of a job. There is no memory for more than 65,536.
pub(crate) fn number_of(place: usize) -> Result<u16, NoMemory>
    ensures { IfOk result (λ number. number ≡ place) }
{
    match u16::try_from(place) {
        Ok(number) => Ok(number),
        Err(_) => Err(NoMemory),
    }
}

/// How the tasks of a system are named, which have these scripts.
pub(crate) fn names_of(
    alloc: Global,
    system: SysId,
    scripts: &[Script<'_>],
) -> Result<List<TaskId>, NoMemory>
    ensures { IfOk result (λ all. all ≡ names_from system.0 0 scripts.now) }
{
    let mut names = List::with_room(alloc, scripts.len())?;
    for (place, script) in scripts.iter().enumerate() {
        let job = number_of(script.job)?;
        let task = number_of(place)?;
        names.push(TaskId { system, job, task })?;
    }
    Ok(names)
}

/// The lines of a task among the scripts of its system.
pub(crate) fn lines_among<'d>(scripts: &[Script<'d>], task: TaskId) -> Option<&'d List<Line>>
    ensures lines { option_copied result ≡ lines_in scripts.now task }
    ensures few { IfSome result (λ lines. length lines.now ≤ most_lines) }
{
    let script = scripts.get(task.task as usize)?;
    if script.job == task.job as usize {
        Some(script.lines)
    } else {
        None
    }
}

/// Whether a task is one of these jobs of its system, each of which has its own tasks behind those of the jobs
/// before it.
#[tactic(auto, using(crate::proofs::Deck::of_deck))]
fn is_among(jobs: &[JobDef], task: TaskId) -> bool
    ensures { result ≡ is_some (lines_in (scripts_from 0 jobs.now) task) }
{
    let mut place = task.task as usize;
    for (number, job) in jobs.iter().enumerate() {
        let count = job.tasks.len();
        if place < count {
            return number == task.job as usize;
        }
        place -= count;
    }
    false
}

/// Whether a task is one of the deck.
#[tactic(auto, using(crate::proofs::Deck::of_deck))]
pub(crate) fn is_of_deck(deck: &Deck, task: TaskId) -> bool
    ensures { result ≡ is_of_deck deck.now task }
{
    match system_at(deck, task.system) {
        None => false,
        Some(def) => is_among(def.jobs.as_slice(), task),
    }
}
