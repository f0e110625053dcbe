//! The lists that a history leaves.
ghost use Rattle.std.specs.Prelude.{◌≡◌, IfOk, OnOk, OnErr};
ghost use Rattle.grs_base.specs.Rows.{rows_of};
ghost use Rattle.grs_wire.specs.History.{step, replay, replay_from};

use grs_base::{List, NoMemory, Row};
use grs_wire::HistEntry;
use qel_store::LinkedQueues;
use queue_table::Table;
use std::alloc::Global;

/// Does what one entry of a history asks for, where a task may have `limit` elements. What the entry says of its answer
/// isn't looked at. Without memory the table stays as it was.
pub fn carry_out(
    alloc: Global,
    limit: u32,
    table: &mut Table<LinkedQueues>,
    entry: &HistEntry,
) -> Result<(), NoMemory>
    ensures elements { OnOk result (table.new.elements ≡ step limit table.old.elements entry.now) }
    ensures unchanged { OnErr result (table.new.elements ≡ table.old.elements) }
{
    match entry {
        HistEntry::Enq {
            task,
            res,
            ctl,
            ret,
            ..
        } => {
            table.reserve(res)?;
            let full = limit as usize <= table.count(*task);
            table.enq_copied(alloc, res, *task, *ctl, *ret, full)?;
        }
        HistEntry::Deq {
            task,
            res,
            have,
            ..
        } => {
            table.deq(res, *task, *have);
        }
        HistEntry::Release { task, res } => {
            table.release(res, *task);
        }
        HistEntry::Look { .. } => {}
        HistEntry::Remove { target, .. } => table.remove_system(*target),
    }
    Ok(())
}

/// The lists that aren't empty once a history is carried out.
fn rows_after(
    alloc: Global,
    table: &mut Table<LinkedQueues>,
    hist: &[HistEntry],
    limit: u32,
) -> Result<List<Row>, NoMemory>
    ensures { IfOk result (λ rows. rows ≡ rows_of (replay_from limit table.old.elements hist.now)) }
{
    for entry in hist {
        carry_out(alloc, limit, table, entry)?;
    }
    table.rows(alloc)
}

/// The lists that aren't empty after a history, where a task may have `limit` elements: Systems
/// resources by name, then system by system its System resources by name and, job by job, its Step
/// resources by name. A name is compared by its qname with blanks behind it, then by its rname.
pub fn queues_after(alloc: Global, hist: &[HistEntry], limit: u32) -> Result<List<Row>, NoMemory>
    ensures { IfOk result (λ rows. rows ≡ rows_of (replay limit hist.now)) }
{
    let mut table = Table::new(alloc, LinkedQueues::new(alloc));
    rows_after(alloc, &mut table, hist, limit)
}
