//! An entry made of the records that were gathered of it.
ghost use Rattle.std.specs.Prelude.{◌≡◌, ◌++◌, ◌∷◌, ◌&&◌, [], true, false, cond, map, Some, IfOk, OnOk};
ghost use Rattle.std.specs.List.{flat_map};
ghost use Rattle.grs_base.specs.Lists.{has_task, owns};
ghost use Rattle.grs_base.specs.Same.{same_res, same_task};
ghost use Rattle.grs_base.specs.State.{list_of};
ghost use Rattle.grs_base.specs.declared.resource.Res.{Res as ResValue};
ghost use Rattle.grs_base.specs.declared.resource.TaskId.{TaskId as TaskValue};
ghost use Rattle.grs_wire.specs.declared.request.Answer.TheVariants.{Coded};
ghost use Rattle.contention_mgr.specs.Installs.{elem_of, lists_of, ranks_on, is_left, kept_of, places_apart, own_in};
ghost use Rattle.contention_mgr.specs.Loads.{greatest};
ghost use Rattle.contention_mgr.specs.Marks.{mark_in, ranked_all, is_gone, AreMarked};

use crate::marks::{Mark, Marks};
use grs_base::{Code, List, NoMemory, Res, Ret, Row, SysId, TaskId};
use grs_wire::PartRec;
use qel_store::LinkedQueues;
use queue_table::Table;
use ret_codes::owners_among;
use std::alloc::Global;

/// Puts the element of a record last in the list of its resource, in which its task has none.
fn add_elem(alloc: Global, table: &mut Table<LinkedQueues>, rec: &PartRec) -> Result<(), NoMemory>
    requires { has_task (list_of table.old.elements rec.now.res) rec.now.task ≡ false }
    ensures { OnOk result (table.new.elements ≡ table.old.elements ++ (rec.now.res, elem_of rec.now) ∷ []) }
{
    table.reserve(&rec.res)?;
    let _ = table.enq_copied(alloc, &rec.res, rec.task, rec.ctl, Ret::RetHave, false)?;
    Ok(())
}

/// Puts the elements of records into lists in which nothing stands.
fn add_lists(
    alloc: Global,
    table: &mut Table<LinkedQueues>,
    recs: &[PartRec],
) -> Result<(), NoMemory>
    requires empty { table.old.elements ≡ [] }
    requires apart { places_apart recs.now ≡ true }
    ensures { OnOk result (table.new.elements ≡ lists_of recs.now) }
{
    for rec in recs {
        add_elem(alloc, table, rec)?;
    }
    Ok(())
}

/// Whether a code is 00.
fn is_zero(code: Code) -> bool
    ensures { result ≡ is_gone (Coded code) }
{
    match code {
        Code::C00 => true,
        _ => false,
    }
}

/// Whether a task owns a resource: only an owner's DEQ is answered 00.
fn is_owner(table: &Table<LinkedQueues>, res: &Res, task: TaskId) -> bool
    ensures { result ≡ owns (list_of table.now.elements res.now) task }
{
    is_zero(table.decide_deq(res, task, true))
}

/// Whether the task of a record is still to be told by its manager that it owns by these lists.
fn is_left(table: &Table<LinkedQueues>, system: SysId, rec: &PartRec) -> bool
    ensures { result ≡ is_left system.0 table.now.elements rec.now }
{
    !rec.told && system.0 != rec.task.system.0 && is_owner(table, &rec.res, rec.task)
}

/// Gives the element of a record its mark.
fn add_mark(
    alloc: Global,
    marks: &mut Marks,
    system: SysId,
    table: &Table<LinkedQueues>,
    rec: &PartRec,
) -> Result<(), NoMemory>
    ensures { OnOk result ((r : ResValue) (t : TaskValue) → mark_in marks.new.names.entries marks.new.marks.entries r t ≡ cond (same_res rec.now.res r && same_task rec.now.task t) (Some (record { rank = rec.now.rank; untold = is_left system.0 table.now.elements rec.now })) (mark_in marks.old.names.entries marks.old.marks.entries r t)) }
{
    let mark = Mark {
        rank: rec.rank,
        untold: is_left(table, system, rec),
    };
    marks.add(alloc, &rec.res, rec.task, mark)
}

/// Gives the elements of records their marks, where none has any.
fn add_marks(
    alloc: Global,
    marks: &mut Marks,
    system: SysId,
    table: &Table<LinkedQueues>,
    recs: &[PartRec],
) -> Result<(), NoMemory>
    requires marked { AreMarked (mark_in marks.old.names.entries marks.old.marks.entries) [] }
    requires apart { places_apart recs.now ≡ true }
    ensures items { OnOk result (ranked_all (mark_in marks.new.names.entries marks.new.marks.entries) (lists_of recs.now) ≡ map (kept_of system.0 table.now.elements) recs.now) }
    ensures marked { OnOk result (AreMarked (mark_in marks.new.names.entries marks.new.marks.entries) (lists_of recs.now)) }
{
    for rec in recs {
        add_mark(alloc, marks, system, table, rec)?;
    }
    Ok(())
}

/// The lists of records.
pub(crate) fn lists_of(alloc: Global, recs: &[PartRec]) -> Result<Table<LinkedQueues>, NoMemory>
    requires { places_apart recs.now ≡ true }
    ensures { IfOk result (λ table. table.elements ≡ lists_of recs.now) }
{
    let mut table = Table::new(alloc, LinkedQueues::new(alloc));
    add_lists(alloc, &mut table, recs)?;
    Ok(table)
}

/// The marks of the elements of records, by these lists.
pub(crate) fn marks_of(
    alloc: Global,
    system: SysId,
    table: &Table<LinkedQueues>,
    recs: &[PartRec],
) -> Result<Marks, NoMemory>
    requires { places_apart recs.now ≡ true }
    ensures items { IfOk result (λ marks. ranked_all (mark_in marks.names.entries marks.marks.entries) (lists_of recs.now) ≡ map (kept_of system.0 table.now.elements) recs.now) }
    ensures marked { IfOk result (λ marks. AreMarked (mark_in marks.names.entries marks.marks.entries) (lists_of recs.now)) }
{
    let mut marks = Marks::new(alloc);
    add_marks(alloc, &mut marks, system, table, recs)?;
    Ok(marks)
}

/// The greatest rank of records, 0 where there is none.
pub(crate) fn greatest_of(recs: &[PartRec]) -> u64
    ensures { result ≡ greatest 0 (ranks_on recs.now) }
{
    let mut most: u64 = 0;
    for rec in recs {
        most = most.max(rec.rank);
    }
    most
}

/// Puts the owners of a row that are of a system behind others, each with the resource.
fn add_owners(
    alloc: Global,
    owners: &mut List<(TaskId, Res)>,
    system: SysId,
    row: &Row,
) -> Result<(), NoMemory>
    ensures { OnOk result (owners.new ≡ owners.old ++ own_in system.0 row.now) }
{
    let elems = row.elems.as_slice();
    let owning = &elems[..owners_among(elems)];
    for elem in owning {
        if system.0 == elem.task.system.0 {
            owners.push((elem.task, row.res.copy(alloc)?))?;
        }
    }
    Ok(())
}

/// The owners of rows that are of a system, each with the resource, row by row.
pub(crate) fn owners_in(
    alloc: Global,
    system: SysId,
    rows: &[Row],
) -> Result<List<(TaskId, Res)>, NoMemory>
    ensures { IfOk result (λ owners. owners ≡ flat_map (own_in system.0) rows.now) }
{
    let mut owners = List::new(alloc);
    for row in rows {
        add_owners(alloc, &mut owners, system, row)?;
    }
    Ok(owners)
}
