//! What was fixed becomes the entries of a history.
ghost use Rattle.std.specs.Prelude.{◌≡◌, ◌++◌, IfOk, OnOk};
ghost use Rattle.grs_wire.specs.History.{entries_for, look_entries, fixed_entries, after_fixed, answered, answered_from};
ghost use Rattle.grs_base.specs.Looks.{look as looked};
ghost use Rattle.grs_wire.specs.Wants.{after_want};

use grs_base::{Filter, List, NoMemory, Place, SysId, TaskId};
use grs_wire::{Fixed, HistEntry, Req, Want};
use qel_store::LinkedQueues;
use queue_table::Table;
use std::alloc::Global;

/// A look at a place, with what it shows.
fn look(
    alloc: Global,
    table: &Table<LinkedQueues>,
    task: TaskId,
    place: Place,
    filter: &Filter,
) -> Result<HistEntry, NoMemory>
    ensures { IfOk result (λ entry. entry ≡ HistEntry.Look task place filter.now (looked table.now.elements place filter.now)) }
{
    let rows = table.look(alloc, place, filter)?;
    let filter = filter.copy(alloc)?;
    Ok(HistEntry::Look {
        task,
        place,
        filter,
        rows,
    })
}

/// Puts a look at each of `count` slices, from slice `first` on, behind a history. There is no memory for slices
/// whose numbers go past 4,294,967,295.
fn look_slices(
    alloc: Global,
    table: &Table<LinkedQueues>,
    task: TaskId,
    first: u32,
    count: u32,
    filter: &Filter,
    hist: &mut List<HistEntry>,
) -> Result<(), NoMemory>
    ensures { OnOk result (hist.new ≡ hist.old ++ look_entries table.now.elements task first count filter.now) }
{
    let Some(end) = first.checked_add(count) else {
        return Err(NoMemory);
    };
    for slice in first..end {
        hist.push(look(alloc, table, task, Place::Slice(slice), filter)?)?;
    }
    Ok(())
}

/// Carries out a request, and puts its entries behind a history.
fn carry_out(
    alloc: Global,
    table: &mut Table<LinkedQueues>,
    req: &Req,
    hist: &mut List<HistEntry>,
) -> Result<(), NoMemory>
    ensures entries { OnOk result (hist.new ≡ hist.old ++ entries_for table.old.elements req.now.task req.now.want) }
    ensures after { OnOk result (table.new.elements ≡ after_want table.old.elements req.now.task req.now.want) }
{
    let task = req.task;
    match &req.want {
        Want::Enq {
            res,
            ctl,
            ret,
            full,
        } => {
            table.reserve(res)?;
            let code = table.enq_copied(alloc, res, task, *ctl, *ret, *full)?;
            let res = res.copy(alloc)?;
            hist.push(HistEntry::Enq {
                task,
                res,
                ctl: *ctl,
                ret: *ret,
                code,
            })
        }
        Want::Deq { res, have } => {
            let res = res.copy(alloc)?;
            let code = table.deq(&res, task, *have);
            hist.push(HistEntry::Deq {
                task,
                res,
                have: *have,
                code,
            })
        }
        Want::Release { res } => {
            let res = res.copy(alloc)?;
            table.release(&res, task);
            hist.push(HistEntry::Release { task, res })
        }
        Want::Look {
            first,
            count,
            filter,
        } => look_slices(alloc, table, task, *first, *count, filter, hist),
    }
}

/// Carries out what an event of a system fixed, and puts its entries behind a history.
pub(crate) fn fix(
    alloc: Global,
    table: &mut Table<LinkedQueues>,
    system: SysId,
    fixed: &Fixed,
    hist: &mut List<HistEntry>,
) -> Result<(), NoMemory>
    ensures entries { OnOk result (hist.new ≡ hist.old ++ fixed_entries table.old.elements system fixed.now) }
    ensures after { OnOk result (table.new.elements ≡ after_fixed table.old.elements fixed.now) }
{
    match fixed {
        Fixed::Asked(req) => carry_out(alloc, table, req, hist),
        Fixed::LocalLook { task, filter } => {
            hist.push(look(alloc, table, *task, Place::Local(task.system), filter)?)
        }
        Fixed::Purged { target } => {
            table.remove_system(*target);
            hist.push(HistEntry::Remove {
                by: system,
                target: *target,
            })
        }
    }
}

/// Carries out what was fixed, and puts its entries behind a history.
fn fix_all(
    alloc: Global,
    table: &mut Table<LinkedQueues>,
    fixed: &[(SysId, Fixed)],
    hist: &mut List<HistEntry>,
) -> Result<(), NoMemory>
    ensures { OnOk result (hist.new ≡ hist.old ++ answered_from table.old.elements fixed.now) }
{
    for one in fixed {
        fix(alloc, table, one.0, &one.1, hist)?;
    }
    Ok(())
}

/// What was fixed, as a history: each request with the reply that plain lists give at its place, a request
/// for looks as a look for each of its slices, and each removal. There is no memory for looks at slices
/// whose numbers go past 4,294,967,295.
pub fn answers(alloc: Global, fixed: &[(SysId, Fixed)]) -> Result<List<HistEntry>, NoMemory>
    ensures { IfOk result (λ hist. hist ≡ answered fixed.now) }
{
    let mut table = Table::new(alloc, LinkedQueues::new(alloc));
    let mut hist = List::with_room(alloc, fixed.len())?;
    fix_all(alloc, &mut table, fixed, &mut hist)?;
    Ok(hist)
}
