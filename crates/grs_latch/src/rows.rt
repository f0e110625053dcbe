//! What is shown of latches: those that have requests, by number.
ghost use Rattle.std.specs.Prelude.{◌≡◌, ◌<◌, ◌≤◌, ◌+◌, ◌++◌, true, nat_eq, drop, length, map, IfOk, OnOk};
ghost use Rattle.grs_base.specs.State.{list_at};
ghost use Rattle.grs_latch.specs.Calls.{row_of, rows_at, rows_in};
ghost use Rattle.grs_latch.specs.Numbered.{lists_at, IsNumbered};

use super::parts::queue_at;
use super::reply::LatchRow;
use grs_base::{Ctl, Elem, List, NoMemory, Queues};
use ret_codes::owners_among;
use std::alloc::Global;

/// Whose each request is, and whether it is exclusive or shared.
fn shown(alloc: Global, elems: &[Elem]) -> Result<List<(u16, Ctl)>, NoMemory>
    ensures { IfOk result (λ shown. shown ≡ map (λ e. (e.task.task, e.ctl)) elems.now) }
{
    let mut shown = List::with_room(alloc, elems.len())?;
    for elem in elems {
        shown.push((elem.task.task, elem.ctl))?;
    }
    Ok(shown)
}

/// The row of a latch with these requests.
fn row(alloc: Global, set: u32, latch: u32, elems: &[Elem]) -> Result<LatchRow, NoMemory>
    ensures { IfOk result (λ row. row ≡ row_of set latch elems.now) }
{
    match u32::try_from(owners_among(elems)) {
        Ok(owners) => Ok(LatchRow {
            set,
            latch,
            elems: shown(alloc, elems)?,
            owners,
        }),
        Err(_) => Err(NoMemory),
    }
}

/// Puts the row of a latch behind others, if it has requests.
fn add_row<Q: Queues>(
    alloc: Global,
    set: u32,
    latch: u32,
    queues: &Q,
    queue: u32,
    rows: &mut List<LatchRow>,
) -> Result<(), NoMemory>
    requires live { Q.is_live queues.now queue ≡ true }
    ensures { OnOk result (rows.new ≡ rows.old ++ rows_at set latch (list_at nat_eq (Q.elements queues.now) queue)) }
{
    if queues.len(queue) == 0 {
        return Ok(());
    }
    let elems = queues.elems(alloc, queue)?;
    rows.push(row(alloc, set, latch, elems.as_slice())?)
}

/// The same of the latch of this number. What is left to be shown is what stands behind it.
fn add_row_at<Q: Queues>(
    alloc: Global,
    set: u32,
    numbers: &[Option<u32>],
    latch: usize,
    queues: &Q,
    rows: &mut List<LatchRow>,
) -> Result<(), NoMemory>
    requires numbered { IsNumbered numbers.now (Q.is_live queues.now) }
    requires few { length numbers.now ≤ 0xffff_ffff }
    requires within { latch < length numbers.now }
    ensures { OnOk result (rows.new ++ rows_in set (latch + 1) (drop (latch + 1) (lists_at numbers.now (Q.elements queues.now))) ≡ rows.old ++ rows_in set latch (drop latch (lists_at numbers.now (Q.elements queues.now)))) }
{
    match queue_at(numbers, latch) {
        Some(queue) => add_row(alloc, set, latch as u32, queues, queue, rows),
        None => Ok(()),
    }
}

/// Puts the rows of a set, by its place, behind others.
#[tactic(auto, using(crate::proofs::PurgeLemmas::all_shown))]
pub(crate) fn add_rows<Q: Queues>(
    alloc: Global,
    set: u32,
    numbers: &[Option<u32>],
    queues: &Q,
    rows: &mut List<LatchRow>,
) -> Result<(), NoMemory>
    requires numbered { IsNumbered numbers.now (Q.is_live queues.now) }
    requires few { length numbers.now ≤ 0xffff_ffff }
    ensures { OnOk result (rows.new ≡ rows.old ++ rows_in set 0 (lists_at numbers.now (Q.elements queues.now))) }
{
    for latch in 0..numbers.len() {
        add_row_at(alloc, set, numbers, latch, queues, rows)?;
    }
    Ok(())
}
