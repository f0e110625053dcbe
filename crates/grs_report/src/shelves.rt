//! Told lines under numbers, so that those of a system or of a task are found without a look at the others.
ghost use Rattle.std.specs.Prelude.{◌≡◌, ◌==◌, false, ◌++◌, ◌∷◌, [], ℕ, ◌<◌, length, map, if◌then◌else◌, OnOk, IfOk, IfSome, IfNone, List};
ghost use Rattle.grs_wire.specs.declared.told.Told.{Told as ToldValue};
ghost use Rattle.grs_report.specs.Told.{task_at, told_by, told_to};
ghost use Rattle.grs_report.specs.Shelves.{lines_under, has_number, told_under};

use grs_base::NoMemory;
use grs_wire::{Told, ToldLine};
use std::alloc::Global;
use std::marker::Model;

/// Puts an item last.
fn put_last<T: Drop>(items: &mut Vec<T>, item: T) -> Result<(), NoMemory>
    ensures { OnOk result (items.new.items ≡ items.old.items ++ item ∷ []) }
{
    match items.push(item) {
        Ok(()) => Ok(()),
        Err(_) => Err(NoMemory),
    }
}

/// Puts a line last.
fn put_line<'t>(lines: &mut Vec<&'t Told>, line: &'t Told) -> Result<(), NoMemory>
    ensures { OnOk result (map (λ t. t.now) lines.new.items ≡ map (λ t. t.now) lines.old.items ++ line.now ∷ []) }
{
    put_last(lines, line)
}

/// Lines under numbers from 0, each list in the order in which its lines were put.
#[derive(Drop)]
pub(crate) struct Shelves<'t> {
    alloc: Global,
    lists: Vec<Vec<&'t Told>>,
}

impl<'t> Model for Shelves<'t> {
    ghost Value = { List (List ToldValue) };

    ghost view = { λ s. map (λ list. map (λ t. t.now) list.items) s.lists.items };
}

impl<'t> Shelves<'t> {
    /// No lines.
    fn new(alloc: Global) -> Self
        ensures { result ≡ [] }
    {
        Shelves {
            alloc,
            lists: Vec::new(alloc),
        }
    }

    /// Makes lists without lines, as far as that of a number.
    fn reach(&mut self, number: usize) -> Result<(), NoMemory>
        ensures reached { OnOk result (number < length self.new) }
        ensures kept { OnOk result ((n : ℕ) → lines_under n self.new ≡ lines_under n self.old) }
    {
        'grow: while self.lists.len() <= number {
            put_last(&mut self.lists, Vec::new(self.alloc))?;
        }
        Ok(())
    }

    /// Puts a line last under a number.
    fn put(&mut self, number: usize, line: &'t Told) -> Result<(), NoMemory>
        ensures { OnOk result ((n : ℕ) → lines_under n self.new
            ≡ (if number == n then lines_under n self.old ++ line.now ∷ [] else lines_under n self.old)) }
    {
        self.reach(number)?;
        put_line(&mut self.lists[number], line)
    }

    /// The lines under a number.
    pub(crate) fn under(&self, number: usize) -> &[&'t Told]
        ensures { map (λ t. t.now) result.now ≡ lines_under number self.now }
    {
        if number < self.lists.len() {
            self.lists[number].as_slice()
        } else {
            &[]
        }
    }
}

/// The number of the task to which a line is told.
fn task_number(line: &ToldLine) -> Option<u16>
    ensures some { IfSome result (λ number. (n : ℕ) → has_number n line.now ≡ (number == n)) }
    ensures none { IfNone result ((n : ℕ) → has_number n line.now ≡ false) }
{
    match line {
        ToldLine::Coded { task, .. }
        | ToldLine::Shown { task, .. }
        | ToldLine::Post { task, .. }
        | ToldLine::Ended { task, .. } => Some(task.task),
        ToldLine::Desk { .. } => None,
    }
}

/// Lines under the numbers of the systems that told them.
pub(crate) fn sorted_by_system<'t>(alloc: Global, told: &'t [Told]) -> Result<Shelves<'t>, NoMemory>
    ensures { IfOk result (λ shelves. (n : ℕ) → lines_under n shelves ≡ told_by n told.now) }
{
    let mut shelves = Shelves::new(alloc);
    for line in told {
        shelves.put(usize::from(line.system.0), line)?;
    }
    Ok(shelves)
}

/// What one system told, and where the lines of each task stand in it.
#[derive(Drop)]
pub(crate) struct SystemLines<'s, 't> {
    told: &'s [&'t Told],
    tasks: Shelves<'t>,
}

impl<'s, 't> Model for SystemLines<'s, 't> {
    ghost Value = { List ToldValue };

    ghost view = { λ lines. map (λ t. t.now) lines.told.now };

    ghost invariant = { λ lines. (n : ℕ) → lines_under n lines.tasks ≡ told_under n (map (λ t. t.now) lines.told.now) };
}

impl<'s, 't> SystemLines<'s, 't> {
    /// These lines, sorted by the numbers of the tasks to which they are told.
    pub(crate) fn new(alloc: Global, told: &'s [&'t Told]) -> Result<Self, NoMemory>
        ensures { IfOk result (λ lines. lines ≡ map (λ t. t.now) told.now) }
    {
        let tasks = sorted_by_task(alloc, told)?;
        Ok(SystemLines { told, tasks })
    }

    /// All lines, in order.
    pub(crate) fn all(&self) -> &[&'t Told]
        ensures { map (λ t. t.now) result.now ≡ self.now }
    {
        self.told
    }

    /// What the tasks of a number were told, of whatever job: among it is, in order, all that the task of this
    /// number in a job was told.
    pub(crate) fn under(&self, number: usize) -> &[&'t Told]
        ensures { (system : ℕ) → (job : ℕ) → told_to (task_at system job number) (map (λ t. t.now) result.now)
            ≡ told_to (task_at system job number) self.now }
    {
        self.tasks.under(number)
    }
}

/// Lines under the numbers of the tasks to which they are told, without those at a desk.
fn sorted_by_task<'t>(alloc: Global, told: &[&'t Told]) -> Result<Shelves<'t>, NoMemory>
    ensures { IfOk result (λ shelves. (n : ℕ) → lines_under n shelves ≡ told_under n (map (λ t. t.now) told.now)) }
{
    let mut shelves = Shelves::new(alloc);
    for line in told {
        if let Some(number) = task_number(&line.line) {
            shelves.put(usize::from(number), *line)?;
        }
    }
    Ok(shelves)
}
