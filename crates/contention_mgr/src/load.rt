//! An entry made of lists whose elements have ranks already.
ghost use Rattle.std.specs.Prelude.{◌≡◌, ◌++◌, ◌∷◌, [], true, false, OnOk};
ghost use Rattle.grs_base.specs.Lists.{is_apart, has_task};
ghost use Rattle.grs_base.specs.State.{list_of};
ghost use Rattle.contention_mgr.specs.Marks.{mark_in, ranked_all, AreMarked};
ghost use Rattle.contention_mgr.specs.Loads.{ranked_list, ranked_rows, rows_free, greatest};
ghost use Rattle.lock_structure.specs.RankedRows.{all_apart, ranks_of};

use crate::marks::{Mark, Marks};
use grs_base::{Elem, List, NoMemory, Res, Ret, Row};
use qel_store::LinkedQueues;
use queue_table::Table;
use std::alloc::Global;

/// Puts an element with a rank last in the list of a resource in which its task has none. Its task counts as told.
fn add_elem(
    alloc: Global,
    table: &mut Table<LinkedQueues>,
    marks: &mut Marks,
    res: &Res,
    elem: Elem,
    rank: u64,
) -> Result<(), NoMemory>
    requires marked { AreMarked (mark_in marks.old.names.entries marks.old.marks.entries) table.old.elements }
    requires absent { has_task (list_of table.old.elements res.now) elem.task ≡ false }
    ensures elements { OnOk result (table.new.elements ≡ table.old.elements ++ (res.now, elem) ∷ []) }
    ensures items { OnOk result (ranked_all (mark_in marks.new.names.entries marks.new.marks.entries) table.new.elements ≡ ranked_all (mark_in marks.old.names.entries marks.old.marks.entries) table.old.elements ++ record { res = res.now; elem = elem; rank = rank; untold = false } ∷ []) }
    ensures marked { OnOk result (AreMarked (mark_in marks.new.names.entries marks.new.marks.entries) table.new.elements) }
{
    let mark = Mark {
        rank,
        untold: false,
    };
    marks.add(alloc, res, elem.task, mark)?;
    table.reserve(res)?;
    let _ = table.enq_copied(alloc, res, elem.task, elem.ctl, Ret::RetHave, false)?;
    Ok(())
}

/// Puts elements with their ranks into the list of a resource, one after the other.
fn add_list(
    alloc: Global,
    table: &mut Table<LinkedQueues>,
    marks: &mut Marks,
    res: &Res,
    elems: &[Elem],
    ranks: &[u64],
) -> Result<(), NoMemory>
    requires marked { AreMarked (mark_in marks.old.names.entries marks.old.marks.entries) table.old.elements }
    requires apart { is_apart (list_of table.old.elements res.now ++ elems.now) ≡ true }
    ensures items { OnOk result (ranked_all (mark_in marks.new.names.entries marks.new.marks.entries) table.new.elements ≡ ranked_all (mark_in marks.old.names.entries marks.old.marks.entries) table.old.elements ++ ranked_list res.now elems.now ranks.now) }
    ensures marked { OnOk result (AreMarked (mark_in marks.new.names.entries marks.new.marks.entries) table.new.elements) }
{
    let mut rest = elems;
    let mut numbers = ranks;
    'elems: while let Some((elem, tail)) = rest.split_first() {
        let Some((rank, more)) = numbers.split_first() else {
            return Ok(());
        };
        add_elem(alloc, table, marks, res, *elem, *rank)?;
        rest = tail;
        numbers = more;
    }
    Ok(())
}

/// Puts the elements of rows into their lists, row by row. No two rows are of one resource, and no task stands twice in
/// a row.
pub(crate) fn add_rows(
    alloc: Global,
    table: &mut Table<LinkedQueues>,
    marks: &mut Marks,
    rows: &[(Row, List<u64>)],
) -> Result<(), NoMemory>
    requires marked { AreMarked (mark_in marks.old.names.entries marks.old.marks.entries) table.old.elements }
    requires free { rows_free table.old.elements rows.now ≡ true }
    requires apart { all_apart rows.now ≡ true }
    ensures items { OnOk result (ranked_all (mark_in marks.new.names.entries marks.new.marks.entries) table.new.elements ≡ ranked_all (mark_in marks.old.names.entries marks.old.marks.entries) table.old.elements ++ ranked_rows rows.now) }
    ensures marked { OnOk result (AreMarked (mark_in marks.new.names.entries marks.new.marks.entries) table.new.elements) }
{
    let mut rest = rows;
    'rows: while let Some((row, tail)) = rest.split_first() {
        add_list(
            alloc,
            table,
            marks,
            &row.0.res,
            row.0.elems.as_slice(),
            row.1.as_slice(),
        )?;
        rest = tail;
    }
    Ok(())
}

/// The greatest of numbers and one that is there.
fn greatest_in(start: u64, ranks: &[u64]) -> u64
    ensures { result ≡ greatest start ranks.now }
{
    let mut most = start;
    let mut rest = ranks;
    'ranks: while let Some((rank, tail)) = rest.split_first() {
        most = most.max(*rank);
        rest = tail;
    }
    most
}

/// The greatest rank of the rows, 0 where there is none.
pub(crate) fn greatest_rank(rows: &[(Row, List<u64>)]) -> u64
    ensures { result ≡ greatest 0 (ranks_of rows.now) }
{
    let mut most = 0;
    let mut rest = rows;
    'rows: while let Some((row, tail)) = rest.split_first() {
        most = greatest_in(most, row.1.as_slice());
        rest = tail;
    }
    most
}
