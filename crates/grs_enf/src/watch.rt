//! A watch, which goes along a history and tells what is noticed entry by entry. It needs no limit of elements, since the
//! codes of a history tell which task had as many as it may.
ghost use Rattle.std.specs.Prelude.{◌≡◌, false, ◌++◌, ◌∷◌, [], filter, map, OnOk, IfOk};
ghost use Rattle.std.specs.List.{flat_map};
ghost use Rattle.grs_base.specs.State.{is_systems, list_of, enq_state};
ghost use Rattle.grs_base.specs.Rows.{lists_of};
ghost use Rattle.grs_enf.specs.Notices.{notices_at, notices_among, resources_of, noted, is_full_code, changes_control, told_step, told_notices};

use super::compare::{changes_control, is_left_waiting, notice_of_last, put_notice};
use super::notice::{Noted, Notice};
use grs_base::{Code, Ctl, List, NoMemory, Res, Ret, Row, TaskId};
use grs_wire::HistEntry;
use qel_store::LinkedQueues;
use queue_table::Table;
use std::alloc::Global;
use std::marker::Model;

/// The lists by the entries so far, seen as all elements with their resources in order of arrival.
#[derive(Drop)]
pub struct Watch {
    table: Table<LinkedQueues>,
}

impl Model for Watch {
    ghost use Rattle.grs_base.specs.State.{State};

    ghost Value = { State };

    ghost view = { λ a. a.table.elements };
}

/// Whether a code tells that the task had as many elements as it may.
fn is_full_code(code: Code) -> bool
    ensures { result ≡ is_full_code code }
{
    match code {
        Code::C18 => true,
        Code::End(n) => n == 538,
        _ => false,
    }
}

/// Does what an entry of a history asks for.
fn carry_out(
    alloc: Global,
    table: &mut Table<LinkedQueues>,
    entry: &HistEntry,
) -> Result<(), NoMemory>
    ensures { OnOk result (table.new.elements ≡ told_step table.old.elements entry.now) }
{
    match entry {
        HistEntry::Enq {
            task,
            res,
            ctl,
            ret,
            code,
        } => {
            table.reserve(res)?;
            table.enq_copied(alloc, res, *task, *ctl, *ret, is_full_code(*code))?;
        }
        HistEntry::Deq {
            task,
            res,
            have,
            ..
        } => {
            table.deq(res, *task, *have);
        }
        HistEntry::Release { task, res } => {
            table.release(res, *task);
        }
        HistEntry::Look { .. } => {}
        HistEntry::Remove { target, .. } => table.remove_system(*target),
    }
    Ok(())
}

/// The notices of an entry that may change the list of one resource.
fn step_one(
    alloc: Global,
    table: &mut Table<LinkedQueues>,
    entry: &HistEntry,
    res: &Res,
) -> Result<List<Notice>, NoMemory>
    ensures notices { IfOk result (λ ns. ns ≡ notices_among table.old.elements (told_step table.old.elements entry.now) (res.now ∷ [])) }
    ensures after { OnOk result (table.new.elements ≡ told_step table.old.elements entry.now) }
{
    let before = table.list(alloc, res)?;
    carry_out(alloc, table, entry)?;
    let after = table.list(alloc, res)?;
    let mut notices = List::new(alloc);
    put_notice(
        alloc,
        res,
        before.as_slice(),
        after.as_slice(),
        &mut notices,
    )?;
    Ok(notices)
}

/// The notices of an ENQ by its code, which tells whether its element waits. Then that is the last of the list; else nobody
/// waits for the resource, or its list stays.
fn step_enq(
    alloc: Global,
    table: &mut Table<LinkedQueues>,
    res: &Res,
    task: TaskId,
    ctl: Ctl,
    ret: Ret,
    full: bool,
) -> Result<List<Notice>, NoMemory>
    requires { changes_control ret ≡ false }
    ensures notices { IfOk result (λ ns. ns ≡ notices_among table.old.elements (enq_state table.old.elements res.now task ctl ret full) (res.now ∷ [])) }
    ensures after { OnOk result (table.new.elements ≡ enq_state table.old.elements res.now task ctl ret full) }
{
    table.reserve(res)?;
    let code = table.enq_copied(alloc, res, task, ctl, ret, full)?;
    if is_left_waiting(ret, code) {
        let after = table.list(alloc, res)?;
        return notice_of_last(alloc, res, after.as_slice());
    }
    Ok(List::new(alloc))
}

/// Puts the notices of the Systems resources among rows behind others, by their lists now.
fn put_systems(
    alloc: Global,
    table: &Table<LinkedQueues>,
    rows: &[Row],
    out: &mut List<Notice>,
) -> Result<(), NoMemory>
    ensures { OnOk result (out.new ≡ out.old ++ flat_map (λ row. notices_at row.res row.elems (list_of table.now.elements row.res)) (filter (λ row. is_systems row.res) rows.now)) }
{
    for row in rows {
        if let Res::Systems { .. } = &row.res {
            let after = table.list(alloc, &row.res)?;
            put_notice(alloc, &row.res, row.elems.as_slice(), after.as_slice(), out)?;
        }
    }
    Ok(())
}

/// The notices of a removal.
fn step_all(
    alloc: Global,
    table: &mut Table<LinkedQueues>,
    entry: &HistEntry,
) -> Result<List<Notice>, NoMemory>
    ensures notices { IfOk result (λ ns. ns ≡ notices_among table.old.elements (told_step table.old.elements entry.now) (filter is_systems (map (λ e. e.0) (lists_of table.old.elements)))) }
    ensures after { OnOk result (table.new.elements ≡ told_step table.old.elements entry.now) }
{
    let rows = table.rows(alloc)?;
    carry_out(alloc, table, entry)?;
    let mut notices = List::new(alloc);
    put_systems(alloc, table, rows.as_slice(), &mut notices)?;
    Ok(notices)
}

impl Watch {
    /// A watch at the begin of a history.
    pub fn new(alloc: Global) -> Watch
        ensures { result ≡ [] }
    {
        Watch {
            table: Table::new(alloc, LinkedQueues::new(alloc)),
        }
    }

    /// Goes past the next entry of a history, and tells what is noticed by it: of each resource whose list it changes
    /// and for which somebody waited before or waits now, in the order in which resources are shown. The entry's code
    /// is taken at its word. Where memory is wanting the watch is given up: it tells nothing true any more.
    pub fn step(&mut self, alloc: Global, entry: &HistEntry) -> Result<List<Notice>, NoMemory>
        ensures notices { IfOk result (λ ns. ns ≡ notices_among self.old (told_step self.old entry.now) (resources_of self.old entry.now)) }
        ensures after { OnOk result (self.new ≡ told_step self.old entry.now) }
    {
        match entry {
            HistEntry::Enq {
                task,
                res,
                ctl,
                ret,
                code,
            } => {
                if changes_control(*ret) {
                    step_one(alloc, &mut self.table, entry, res)
                } else {
                    let full = is_full_code(*code);
                    step_enq(alloc, &mut self.table, res, *task, *ctl, *ret, full)
                }
            }
            HistEntry::Deq { res, .. } | HistEntry::Release { res, .. } => step_one(
                alloc,
                &mut self.table,
                entry,
                res,
            ),
            HistEntry::Look { .. } => Ok(List::new(alloc)),
            HistEntry::Remove { .. } => step_all(alloc, &mut self.table, entry),
        }
    }
}

/// Puts notices behind others, under the number of their entry.
fn put_noted(
    alloc: Global,
    entry: u64,
    notices: &[Notice],
    out: &mut List<Noted>,
) -> Result<(), NoMemory>
    ensures { OnOk result (out.new ≡ out.old ++ noted entry notices.now) }
{
    for notice in notices {
        let notice = notice.copy(alloc)?;
        out.push(Noted { entry, notice })?;
    }
    Ok(())
}

/// The notices of a history, entry by entry, each with the number of its entry from 1. Want of memory is `NoMemory`.
pub fn notices_of(alloc: Global, hist: &[HistEntry]) -> Result<List<Noted>, NoMemory>
    ensures { IfOk result (λ ns. ns ≡ told_notices hist.now) }
{
    let mut watch = Watch::new(alloc);
    let mut noted = List::new(alloc);
    for (place, entry) in hist.iter().enumerate() {
        let notices = watch.step(alloc, entry)?;
        put_noted(alloc, place as u64 + 1, notices.as_slice(), &mut noted)?;
    }
    Ok(noted)
}
