//! What each statement adds to a deck. What grows is the last system, its last job, its last task.
ghost use Rattle.std.specs.Prelude.{◌≡◌, false, OnOk, IfOk};
ghost use Rattle.grs_base.specs.NameLists.{AreLists};
ghost use Rattle.grs_wire.specs.Decks.{Fits};
ghost use Rattle.grs_deck.specs.Judge.{has_bad_name, is_list_full, is_crowded};
ghost use Rattle.grs_deck.specs.Places.{event_in};
ghost use Rattle.grs_deck.specs.Grow.{with_entry, add_command, removal_of, order_by, add_order, add_job, add_task, add_line, in_jobs, in_tasks, with_setup, grow_deck};

use crate::defaults::{DEFAULT_ENTRIES, DEFAULT_LIMIT};
use deck_form::{GivenOrder, Setup, Stmt};
use deck_scan::GivenName;
use grs_base::{Line, List, Lists, MOST_SYSTEMS, NoMemory, RnlEntry, SysId, Which};
use grs_wire::{Deck, Desk, Event, JobDef, Name, Order, SystemDef, TaskDef};
use job_syntax::line_of;
use rnl_syntax::entry_of;
use std::alloc::Global;

/// Puts an entry into its list.
fn push_entry(lists: &mut Lists, entry: RnlEntry) -> Result<(), NoMemory>
    requires lists { AreLists lists.old }
    requires room { is_list_full lists.old entry.which ≡ false }
    ensures { OnOk result (lists.new ≡ with_entry entry lists.old) }
{
    match entry.which {
        Which::Incl => lists.incl.push(entry),
        Which::Excl => lists.excl.push(entry),
        Which::Con => lists.con.push(entry),
    }
}

/// Adds a command to the desk of the last system.
fn push_command(systems: &mut List<SystemDef>, command: Desk) -> Result<(), NoMemory>
    ensures { OnOk result (systems.new ≡ add_command command systems.old) }
{
    match systems.pop() {
        None => Ok(()),
        Some(mut s) => {
            s.desk.push(command)?;
            systems.push(s)
        }
    }
}

/// The removal of the system whose name has this place among those that SYSTEM statements give. Behind as many as a deck may
/// have no name gives a system.
fn removal_of(place: Option<usize>) -> Option<Order>
    ensures { result ≡ removal_of place }
{
    match place {
        Some(place) if place < MOST_SYSTEMS => Some(Order::Vary(SysId(place as u8))),
        _ => None,
    }
}

/// What is commanded, where the name that it says has this place.
fn order_by(place: Option<usize>, order: &GivenOrder<'_>) -> Option<Order>
    ensures { result ≡ order_by place order.now }
{
    match order {
        GivenOrder::Star => Some(Order::Star),
        GivenOrder::Vary(_) => removal_of(place),
    }
}

/// Adds what is commanded to the desk of the last system.
fn push_order(systems: &mut List<SystemDef>, at: u32, order: Option<Order>) -> Result<(), NoMemory>
    ensures { OnOk result (systems.new ≡ add_order at order systems.old) }
{
    match order {
        None => Ok(()),
        Some(order) => push_command(systems, Desk { at, order }),
    }
}

/// Adds a job to the last system.
fn push_job(systems: &mut List<SystemDef>, alloc: Global, name: Name) -> Result<(), NoMemory>
    ensures { OnOk result (systems.new ≡ add_job name systems.old) }
{
    match systems.pop() {
        None => Ok(()),
        Some(mut s) => {
            s.jobs.push(JobDef {
                name,
                tasks: List::new(alloc),
            })?;
            systems.push(s)
        }
    }
}

/// Adds a task to the last job.
fn push_task(jobs: &mut List<JobDef>, alloc: Global, name: Name) -> Result<(), NoMemory>
    ensures { OnOk result (jobs.new ≡ add_task name jobs.old) }
{
    match jobs.pop() {
        None => Ok(()),
        Some(mut j) => {
            j.tasks.push(TaskDef {
                name,
                lines: List::new(alloc),
            })?;
            jobs.push(j)
        }
    }
}

/// Adds a line to the last task.
fn push_line(tasks: &mut List<TaskDef>, line: Line) -> Result<(), NoMemory>
    ensures { OnOk result (tasks.new ≡ add_line line tasks.old) }
{
    match tasks.pop() {
        None => Ok(()),
        Some(mut t) => {
            t.lines.push(line)?;
            tasks.push(t)
        }
    }
}

/// Adds a line to the last task of the last job.
fn push_job_line(jobs: &mut List<JobDef>, line: Line) -> Result<(), NoMemory>
    ensures { OnOk result (jobs.new ≡ in_tasks (add_line line) jobs.old) }
{
    match jobs.pop() {
        None => Ok(()),
        Some(mut j) => {
            push_line(&mut j.tasks, line)?;
            jobs.push(j)
        }
    }
}

/// Adds a task to the last job of the last system.
fn push_system_task(
    systems: &mut List<SystemDef>,
    alloc: Global,
    name: Name,
) -> Result<(), NoMemory>
    ensures { OnOk result (systems.new ≡ in_jobs (add_task name) systems.old) }
{
    match systems.pop() {
        None => Ok(()),
        Some(mut s) => {
            push_task(&mut s.jobs, alloc, name)?;
            systems.push(s)
        }
    }
}

/// Adds a line to the last task of the last job of the last system.
fn push_system_line(systems: &mut List<SystemDef>, line: Line) -> Result<(), NoMemory>
    ensures { OnOk result (systems.new ≡ in_jobs (in_tasks (add_line line)) systems.old) }
{
    match systems.pop() {
        None => Ok(()),
        Some(mut s) => {
            push_job_line(&mut s.jobs, line)?;
            systems.push(s)
        }
    }
}

/// The operands of COMPLEX in place of the values without one.
fn set_up(deck: &mut Deck, setup: Setup)
    ensures { deck.new ≡ with_setup setup deck.old }
{
    deck.star = setup.star.unwrap_or(false);
    deck.entries = setup.entries.unwrap_or(DEFAULT_ENTRIES);
    deck.limit = setup.limit.unwrap_or(DEFAULT_LIMIT);
}

/// The name of a system, job or task, in memory of its own.
fn kept_name(alloc: Global, name: &GivenName<'_>) -> Result<Name, NoMemory>
    ensures { IfOk result (λ kept. kept ≡ name.now) }
{
    List::from_bytes(alloc, name.bytes())
}

/// Adds what a statement says whose names have the right lengths, where `event` is the event that it is, and a name that its
/// command says has this place. Its names are copied here.
pub fn grow_deck(
    deck: &mut Deck,
    alloc: Global,
    st: &Stmt<'_>,
    event: Option<Event>,
    place: Option<usize>,
) -> Result<(), NoMemory>
    requires names { has_bad_name st.now ≡ false }
    requires systems { Fits deck.old.systems }
    requires lists { AreLists deck.old.lists }
    requires room { is_crowded deck.old st.now ≡ false }
    requires event { event ≡ event_in deck.old.systems st.now }
    ensures { OnOk result (deck.new ≡ grow_deck place deck.old st.now) }
{
    match st {
        Stmt::Complex(setup) => {
            set_up(deck, *setup);
            Ok(())
        }
        Stmt::Rnldef(rnldef) => {
            let entry = entry_of(alloc, rnldef)?;
            push_entry(&mut deck.lists, entry)
        }
        Stmt::System(name) => {
            let name = kept_name(alloc, name)?;
            deck.systems.push(SystemDef {
                name,
                desk: List::new(alloc),
                jobs: List::new(alloc),
            })
        }
        Stmt::Job(name) => {
            let name = kept_name(alloc, name)?;
            push_job(&mut deck.systems, alloc, name)
        }
        Stmt::Task(name) => {
            let name = kept_name(alloc, name)?;
            push_system_task(&mut deck.systems, alloc, name)
        }
        Stmt::Line(line_ask) => {
            let line = line_of(alloc, line_ask)?;
            push_system_line(&mut deck.systems, line)
        }
        Stmt::Command(command) => {
            let order = order_by(place, &command.order);
            push_order(&mut deck.systems, command.at, order)
        }
        Stmt::Schedule => Ok(()),
        Stmt::Event { .. } => match event {
            None => Ok(()),
            Some(event) => deck.events.push(event),
        },
    }
}
