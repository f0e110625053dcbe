//! The deck of a number.
ghost use Rattle.std.specs.Prelude.{◌≡◌, ◌<◌, ◌≤◌, ◌++◌, ◌∷◌, [], codes, IfOk, OnOk};
ghost use Rattle.grs_base.specs.Limits.{most_systems, most_tasks};
ghost use Rattle.grs_wire.specs.Decks.{IsDeck};
ghost use Rattle.grs_gen.specs.Generated.{IsSize, numbered, resource_name, control_of, enq_line, deq_line, lines_of, task_of, job_of, desk_of, system_of, deck_of};

use grs_base::{
    Ctl, Item, Line, List, Lists, NameFault, NoMemory, Qname, Ret, Rname, Scope, SysId,
};
use grs_wire::{Deck, Desk, JobDef, Name, Order, SystemDef, TaskDef};
use itoa::Buffer;
use std::alloc::Global;

/// For how many resources a task asks, at most.
const MOST_ASKED: u32 = 8;

/// Of how many resources each task asks for some.
const RESOURCES: u32 = 16;

/// How many lock entries there are.
const ENTRIES: u32 = 4;

/// The limit of concurrent requests of a task.
const LIMIT: u32 = 4096;

/// A letter and a number.
fn numbered(alloc: Global, letter: u8, number: u32) -> Result<Name, NoMemory>
    ensures { IfOk result (λ name. name ≡ numbered letter number) }
{
    let mut digits = Buffer::new();
    let mut name = List::new(alloc);
    name.push(letter)?;
    name.append(digits.format(number).as_bytes())?;
    Ok(name)
}

/// The qname of all resources.
fn qname(alloc: Global) -> Result<Qname, NoMemory>
    ensures { IfOk result (λ q. q ≡ codes "GEN") }
{
    match Qname::new(alloc, b"GEN") {
        Ok(q) => Ok(q),
        Err(NameFault::BadLength) => unreachable!(),
        Err(NameFault::NoMemory) => Err(NoMemory),
    }
}

/// The rname of the resource for which a task asks as its j-th.
fn rname(alloc: Global, task: u32, asked: u32) -> Result<Rname, NoMemory>
    requires task { task ≤ most_tasks }
    requires asked { asked ≤ 8 }
    ensures { IfOk result (λ r. r ≡ resource_name task asked) }
{
    let bytes = numbered(alloc, b'R', (task + asked) % RESOURCES)?;
    match Rname::new(alloc, bytes.as_slice()) {
        Ok(r) => Ok(r),
        Err(NameFault::BadLength) => unreachable!(),
        Err(NameFault::NoMemory) => Err(NoMemory),
    }
}

/// The control that it asks for.
fn control_of(system: u32, task: u32, asked: u32) -> Ctl
    requires system { system < most_systems }
    requires task { task ≤ most_tasks }
    requires asked { asked ≤ 8 }
    ensures { result ≡ control_of system task asked }
{
    if (system + task + asked) % 3 == 0 {
        Ctl::E
    } else {
        Ctl::S
    }
}

/// The line that asks for it.
fn enq_line(alloc: Global, system: u32, task: u32, asked: u32) -> Result<Line, NoMemory>
    requires system { system < most_systems }
    requires task { task ≤ most_tasks }
    requires asked { asked ≤ 8 }
    ensures { IfOk result (λ line. line ≡ enq_line system task asked) }
{
    let q = qname(alloc)?;
    let r = rname(alloc, task, asked)?;
    let mut items = List::new(alloc);
    items.push(Item {
        q,
        r,
        ctl: control_of(system, task, asked),
        scope: Scope::Systems,
    })?;
    Ok(Line::Enq {
        items,
        ret: Ret::RetNone,
        rnl: true,
    })
}

/// The line that gives it back.
fn deq_line(alloc: Global, task: u32, asked: u32) -> Result<Line, NoMemory>
    requires task { task ≤ most_tasks }
    requires asked { asked ≤ 8 }
    ensures { IfOk result (λ line. line ≡ deq_line task asked) }
{
    let q = qname(alloc)?;
    let r = rname(alloc, task, asked)?;
    Ok(Line::Deq {
        q,
        r,
        scope: Scope::Systems,
        have: false,
        unit: None,
        rnl: true,
    })
}

/// Puts both lines last.
fn put_lines(
    alloc: Global,
    system: u32,
    task: u32,
    asked: u32,
    lines: &mut List<Line>,
) -> Result<(), NoMemory>
    requires system { system < most_systems }
    requires task { task ≤ most_tasks }
    requires asked { asked ≤ 8 }
    ensures { OnOk result (lines.new ≡ lines.old ++ enq_line system task asked ∷ deq_line task asked ∷ []) }
{
    lines.push(enq_line(alloc, system, task, asked)?)?;
    lines.push(deq_line(alloc, task, asked)?)
}

/// The lines of a task.
fn lines_of(alloc: Global, n: u32, system: u32, task: u32) -> Result<List<Line>, NoMemory>
    requires system { system < most_systems }
    requires task { task ≤ most_tasks }
    ensures { IfOk result (λ lines. lines ≡ lines_of n system task) }
{
    let mut lines = List::new(alloc);
    for place in 0..n.min(MOST_ASKED) {
        put_lines(alloc, system, task, place + 1, &mut lines)?;
    }
    Ok(lines)
}

/// A task of a system, with its number from 1.
fn task_of(alloc: Global, n: u32, system: u32, task: u32) -> Result<TaskDef, NoMemory>
    requires system { system < most_systems }
    requires task { task ≤ most_tasks }
    ensures { IfOk result (λ def. def ≡ task_of n system task) }
{
    let name = numbered(alloc, b'T', task)?;
    let lines = lines_of(alloc, n, system, task)?;
    Ok(TaskDef { name, lines })
}

/// The job of a system.
fn job_of(alloc: Global, n: u32, system: u32) -> Result<JobDef, NoMemory>
    requires system { system < most_systems }
    requires size { n ≤ most_tasks }
    ensures { IfOk result (λ def. def ≡ job_of n system) }
{
    let name = List::from_bytes(alloc, b"J1")?;
    let mut tasks = List::new(alloc);
    for place in 0..n {
        tasks.push(task_of(alloc, n, system, place + 1)?)?;
    }
    Ok(JobDef { name, tasks })
}

/// The commands of a system's desk.
fn desk_of(alloc: Global, system: u32) -> Result<List<Desk>, NoMemory>
    ensures { IfOk result (λ desk. desk ≡ desk_of system) }
{
    let mut desk = List::new(alloc);
    if system == 0 {
        desk.push(Desk {
            at: 0,
            order: Order::Star,
        })?;
    }
    Ok(desk)
}

/// A system, with its number from 0.
fn system_of(alloc: Global, n: u32, system: u32) -> Result<SystemDef, NoMemory>
    requires system { system < most_systems }
    requires size { n ≤ most_tasks }
    ensures { IfOk result (λ def. def ≡ system_of n system) }
{
    let mut name = List::from_bytes(alloc, b"SY")?;
    name.push(b'A' + system as u8)?;
    let desk = desk_of(alloc, system)?;
    let mut jobs = List::new(alloc);
    jobs.push(job_of(alloc, n, system)?)?;
    Ok(SystemDef { name, desk, jobs })
}

/// The deck of a number, made by its parts.
#[tactic(auto, unfolding(crate::specs::Generated::deck_of))]
fn deck_of(alloc: Global, n: u32) -> Result<Deck, NoMemory>
    requires { IsSize n }
    ensures { IfOk result (λ deck. deck ≡ deck_of n) }
{
    let mut systems = List::new(alloc);
    for system in 0..1 + n % 8 {
        systems.push(system_of(alloc, n, system)?)?;
    }
    Ok(Deck {
        star: false,
        entries: ENTRIES,
        limit: LIMIT,
        lists: Lists::new(alloc),
        systems,
        events: List::new(alloc),
    })
}

/// The deck of a number from 1 to 64: a ring of 1 + n mod 8 systems, each with n tasks that ask for up to eight of sixteen
/// resources, one behind the other, and give each back before they ask for the next; the first system's desk changes the
/// complex to star mode. It is a deck as one that is read.
pub fn deck(alloc: Global, n: u32) -> Result<Deck, NoMemory>
    requires { IsSize n }
    ensures deck { IfOk result (λ deck. deck ≡ deck_of n) }
    ensures good { IfOk result IsDeck }
{
    deck_of(alloc, n)
}
