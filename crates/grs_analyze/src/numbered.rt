//! The lists with numbers in place of tasks, so that sets of tasks are flags. What waits for what isn't known here.
ghost use Rattle.std.specs.Prelude.{◌≡◌, take, drop, map, slice_get, Some, OnOk, IfOk};
ghost use Rattle.grs_base.specs.Lists.{owners};
ghost use Rattle.grs_analyze.specs.Greatest.{with_task, with_tasks, with_rows};
ghost use Rattle.grs_analyze.specs.Numbered.{elems_of, AreNamed, IsNamedLine, AreNamedLines, plain_line, parted, IsNumbered};

use grs_base::{Elem, List, NoMemory, Row, TaskId};
use indexmap::IndexSet;
use ret_codes::owners_among;
use std::alloc::Global;

/// An element with the number of its task.
#[derive(Clone, Copy)]
pub(crate) struct Spot {
    pub elem: Elem,
    pub number: usize,
}

/// The elements of a list that own, and those that wait.
#[derive(Drop)]
pub(crate) struct Line {
    pub front: List<Spot>,
    pub waiters: List<Spot>,
}

/// The tasks of rows, each at the place that is its number, and the lists.
#[derive(Drop)]
pub(crate) struct Numbered {
    pub tasks: List<TaskId>,
    pub lines: List<Line>,
}

/// The number of a task, which is added where it is new.
fn number(tasks: &mut IndexSet<TaskId>, task: TaskId) -> Result<usize, NoMemory>
    ensures tasks { OnOk result (tasks.new.keys ≡ with_task tasks.old.keys task) }
    ensures number { IfOk result (λ n. slice_get tasks.new.keys n ≡ Some task) }
{
    match tasks.insert_full(task) {
        Ok((number, _)) => Ok(number),
        Err(_) => Err(NoMemory),
    }
}

/// Elements with the numbers of their tasks.
fn spots(
    alloc: Global,
    tasks: &mut IndexSet<TaskId>,
    elems: &[Elem],
) -> Result<List<Spot>, NoMemory>
    ensures tasks { OnOk result (tasks.new.keys ≡ with_tasks tasks.old.keys elems.now) }
    ensures elems { IfOk result (λ spots. elems_of spots ≡ elems.now) }
    ensures named { IfOk result (λ spots. AreNamed tasks.new.keys spots) }
{
    let mut spots = List::with_room(alloc, elems.len())?;
    for elem in elems {
        let number = number(tasks, elem.task)?;
        spots.push(Spot {
            elem: *elem,
            number,
        })?;
    }
    Ok(spots)
}

/// A row with the numbers of its tasks, in its two parts.
#[tactic(auto, using(crate::proofs::NumberLemmas::line_steps))]
fn line_of(alloc: Global, tasks: &mut IndexSet<TaskId>, elems: &[Elem]) -> Result<Line, NoMemory>
    ensures tasks { OnOk result (tasks.new.keys ≡ with_tasks tasks.old.keys elems.now) }
    ensures front { IfOk result (λ line. elems_of line.front ≡ take (owners elems.now) elems.now) }
    ensures waiters { IfOk result (λ line. elems_of line.waiters ≡ drop (owners elems.now) elems.now) }
    ensures named { IfOk result (λ line. IsNamedLine tasks.new.keys line) }
{
    let (front, waiters) = elems.split_at(owners_among(elems));
    let front = spots(alloc, tasks, front)?;
    let waiters = spots(alloc, tasks, waiters)?;
    Ok(Line { front, waiters })
}

/// Rows with the numbers of their tasks.
fn lines(alloc: Global, tasks: &mut IndexSet<TaskId>, rows: &[Row]) -> Result<List<Line>, NoMemory>
    ensures tasks { OnOk result (tasks.new.keys ≡ with_rows tasks.old.keys rows.now) }
    ensures lines { IfOk result (λ lines. map plain_line lines ≡ map parted rows.now) }
    ensures named { IfOk result (λ lines. AreNamedLines tasks.new.keys lines) }
{
    let mut lines = List::with_room(alloc, rows.len())?;
    for row in rows {
        lines.push(line_of(alloc, tasks, row.elems.as_slice())?)?;
    }
    Ok(lines)
}

/// The tasks of a set, in its order.
fn listed(alloc: Global, tasks: &IndexSet<TaskId>) -> Result<List<TaskId>, NoMemory>
    ensures { IfOk result (λ list. list ≡ tasks.now.keys) }
{
    let mut list = List::with_room(alloc, tasks.len())?;
    for place in 0..tasks.len() {
        match tasks.get_index(place) {
            Some(task) => list.push(*task)?,
            None => unreachable!(),
        }
    }
    Ok(list)
}

/// The lists with numbers in place of tasks.
pub(crate) fn number_rows(alloc: Global, rows: &[Row]) -> Result<Numbered, NoMemory>
    ensures { IfOk result (λ numbered. IsNumbered rows.now numbered) }
{
    let mut tasks = IndexSet::new(alloc);
    let lines = lines(alloc, &mut tasks, rows)?;
    let tasks = listed(alloc, &tasks)?;
    Ok(Numbered { tasks, lines })
}
