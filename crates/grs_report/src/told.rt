//! What was told, system by system and task by task. All lines are sorted by their systems once, and those of
//! a system by the numbers of its tasks.
ghost use Rattle.std.specs.Prelude.{◌≡◌, ◌≤◌, ◌++◌, ◌+◌, ◌∷◌, [], codes, map, length, OnOk};
ghost use Rattle.grs_base.specs.Limits.{most_jobs, most_tasks};
ghost use Rattle.grs_wire.specs.Decks.{task_count, IsWithin, Fits};
ghost use Rattle.grs_display.specs.Lines.{line};
ghost use Rattle.grs_report.specs.Told.{told_lines, is_told_at_desk, told_to, told_at_desk, end_of, task_text, tasks_text, jobs_text, systems_text, told_text};
ghost use Rattle.grs_wire.specs.ToldTo.{is_told_to};

use super::shelves::{SystemLines, sorted_by_system};
use super::spelled::end_word;
use super::told_line::put_told_line;
use grs_base::{List, NoMemory, SysId, TaskId, is_same_task};
use grs_display::put_line;
use grs_wire::{JobDef, Names, SystemDef, TaskEnd, Told, ToldLine};
use std::alloc::Global;

/// Whether a line is told to a task.
fn is_told_to(task: TaskId, line: &ToldLine) -> bool
    ensures { result ≡ is_told_to task line.now }
{
    match line {
        ToldLine::Coded { task: told, .. }
        | ToldLine::Shown { task: told, .. }
        | ToldLine::Post { task: told, .. }
        | ToldLine::Ended { task: told, .. } => is_same_task(task, *told),
        ToldLine::Desk { .. } => false,
    }
}

/// Whether a line is told at a desk.
fn is_told_at_desk(line: &ToldLine) -> bool
    ensures { result ≡ is_told_at_desk line.now }
{
    match line {
        ToldLine::Coded { .. }
        | ToldLine::Shown { .. }
        | ToldLine::Post { .. }
        | ToldLine::Ended { .. } => false,
        ToldLine::Desk { .. } => true,
    }
}

/// Puts what was told at a desk behind a text.
fn put_told_at_desk(
    alloc: Global,
    names: &Names,
    told: &[&Told],
    out: &mut List<u8>,
) -> Result<(), NoMemory>
    ensures { OnOk result (out.new ≡ out.old
        ++ told_lines names.now (told_at_desk (map (λ t. t.now) told.now))) }
{
    for line in told {
        if is_told_at_desk(&line.line) {
            put_told_line(alloc, names, line, out)?;
        }
    }
    Ok(())
}

/// Puts what one task was told behind a text.
fn put_told_to(
    alloc: Global,
    names: &Names,
    task: TaskId,
    told: &[&Told],
    out: &mut List<u8>,
) -> Result<(), NoMemory>
    ensures { OnOk result (out.new ≡ out.old ++ told_lines names.now (told_to task (map (λ t. t.now) told.now))) }
{
    for line in told {
        if is_told_to(task, &line.line) {
            put_told_line(alloc, names, line, out)?;
        }
    }
    Ok(())
}

/// Puts what one task was told behind a text, of all that its system told.
fn put_told_among(
    alloc: Global,
    names: &Names,
    task: TaskId,
    told: &SystemLines,
    out: &mut List<u8>,
) -> Result<(), NoMemory>
    ensures { OnOk result (out.new ≡ out.old ++ told_lines names.now (told_to task told.now)) }
{
    let lines = told.under(usize::from(task.task));
    put_told_to(alloc, names, task, lines, out)
}

/// How a task stands at the end.
fn end_of(task: TaskId, ended: &[(TaskId, TaskEnd)]) -> TaskEnd
    ensures { result ≡ end_of task ended.now }
{
    for (other, end) in ended {
        if is_same_task(task, *other) {
            return *end;
        }
    }
    TaskEnd::Open
}

/// Puts the name of a task behind a text as a line.
#[tactic(auto, unfolding(grs_display::specs::Lines::line))]
fn put_task_name(job: &[u8], name: &[u8], out: &mut List<u8>) -> Result<(), NoMemory>
    ensures { OnOk result (out.new ≡ out.old ++ line (codes "TASK" ∷ (job.now ++ (46 ∷ name.now)) ∷ [])) }
{
    out.append(b"TASK ")?;
    out.append(job)?;
    out.push(b'.')?;
    out.append(name)?;
    out.push(b'\n')
}

/// Puts a task behind a text.
#[tactic(auto, unfolding(crate::specs::Told::task_text))]
fn put_task(
    alloc: Global,
    names: &Names,
    told: &SystemLines,
    ended: &[(TaskId, TaskEnd)],
    job: &[u8],
    task: TaskId,
    name: &[u8],
    out: &mut List<u8>,
) -> Result<(), NoMemory>
    ensures { OnOk result (out.new ≡ out.old ++ task_text names.now told.now ended.now job.now task name.now) }
{
    put_task_name(job, name, out)?;
    put_told_among(alloc, names, task, told, out)?;
    put_line(&[b"S".as_slice(), end_word(end_of(task, ended))], out)
}

/// Puts the tasks of a job behind a text. The first of them is `first`.
fn put_tasks(
    alloc: Global,
    names: &Names,
    told: &SystemLines,
    ended: &[(TaskId, TaskEnd)],
    job: &JobDef,
    first: TaskId,
    out: &mut List<u8>,
) -> Result<(), NoMemory>
    requires { first.task + length job.now.tasks ≤ most_tasks }
    ensures { OnOk result (out.new ≡ out.old
        ++ tasks_text names.now told.now ended.now job.now.name first.system.0 first.job first.task job.now.tasks) }
{
    let tasks = job.tasks.as_slice();
    let mut place = first.task;
    for task in tasks {
        put_task(
            alloc,
            names,
            told,
            ended,
            job.name.as_slice(),
            TaskId {
                task: place,
                ..first
            },
            task.name.as_slice(),
            out,
        )?;
        place += 1;
    }
    Ok(())
}

/// Puts the jobs of a system behind a text.
fn put_jobs(
    alloc: Global,
    names: &Names,
    told: &SystemLines,
    ended: &[(TaskId, TaskEnd)],
    system: SysId,
    jobs: &[JobDef],
    out: &mut List<u8>,
) -> Result<(), NoMemory>
    requires jobs { length jobs.now ≤ most_jobs }
    requires tasks { task_count jobs.now ≤ most_tasks }
    ensures { OnOk result (out.new ≡ out.old ++ jobs_text names.now told.now ended.now system.0 0 0 jobs.now) }
{
    let mut task = 0;
    for (job, def) in jobs.iter().enumerate() {
        let first = TaskId {
            system,
            job: job as u16,
            task,
        };
        put_tasks(alloc, names, told, ended, def, first, out)?;
        task += def.tasks.len() as u16;
    }
    Ok(())
}

/// Puts a system behind a text, with what it told.
fn put_system(
    alloc: Global,
    names: &Names,
    told: &[&Told],
    ended: &[(TaskId, TaskEnd)],
    system: SysId,
    def: &SystemDef,
    out: &mut List<u8>,
) -> Result<(), NoMemory>
    requires { IsWithin def.now }
    ensures { OnOk result (out.new ≡ out.old
        ++ ((line (codes "SYSTEM" ∷ def.now.name ∷ []) ++ told_lines names.now (told_at_desk (map (λ t. t.now) told.now)))
        ++ jobs_text names.now (map (λ t. t.now) told.now) ended.now system.0 0 0 def.now.jobs)) }
{
    put_line(&[b"SYSTEM".as_slice(), def.name.as_slice()], out)?;
    put_told_at_desk(alloc, names, told, out)?;
    let lines = SystemLines::new(alloc, told)?;
    put_jobs(
        alloc,
        names,
        &lines,
        ended,
        system,
        def.jobs.as_slice(),
        out,
    )
}

/// Puts systems behind a text, each with what it told.
#[tactic(auto, unfolding(crate::specs::Told::system_text))]
fn put_systems(
    alloc: Global,
    names: &Names,
    told: &[Told],
    ended: &[(TaskId, TaskEnd)],
    systems: &[SystemDef],
    out: &mut List<u8>,
) -> Result<(), NoMemory>
    requires { Fits systems.now }
    ensures { OnOk result (out.new ≡ out.old ++ systems_text names.now told.now ended.now 0 systems.now) }
{
    let lines = sorted_by_system(alloc, told)?;
    for (place, def) in systems.iter().enumerate() {
        let system = SysId(place as u8);
        put_system(alloc, names, lines.under(place), ended, system, def, out)?;
    }
    Ok(())
}

/// Puts what was told behind a text.
#[tactic(auto, unfolding(crate::specs::Told::told_text))]
pub(crate) fn put_told(
    alloc: Global,
    names: &Names,
    told: &[Told],
    ended: &[(TaskId, TaskEnd)],
    systems: &[SystemDef],
    out: &mut List<u8>,
) -> Result<(), NoMemory>
    requires { Fits systems.now }
    ensures { OnOk result (out.new ≡ out.old ++ told_text names.now told.now ended.now systems.now) }
{
    put_line(&[b"TOLD".as_slice()], out)?;
    put_systems(alloc, names, told, ended, systems, out)
}
