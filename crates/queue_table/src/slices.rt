//! Looks at several slices, one after the other.
ghost use Rattle.std.specs.Prelude.{◌≡◌, ◌++◌, ◌+◌, min, IfOk};
ghost use Rattle.grs_wire.specs.Wants.{looks};

use super::table::Table;
use grs_base::{Filter, List, NoMemory, Place, Queues, Row, SLICES};
use std::alloc::Global;

/// Rows with more behind them.
fn joined(rows: List<Row>, more: List<Row>) -> Result<List<Row>, NoMemory>
    ensures { IfOk result (λ all. all ≡ rows ++ more) }
{
    let mut all = rows.into_vec();
    let mut more = more.into_vec();
    match all.append(&mut more) {
        Ok(()) => Ok(List::from_vec(all)),
        Err(_) => Err(NoMemory),
    }
}

/// The first slice behind those that are looked at. There is nothing in a slice behind the last one.
fn end_of(first: u32, count: u32) -> u32
    ensures { result ≡ min (first + count) SLICES }
{
    first.saturating_add(count).min(SLICES)
}

/// What looks at `count` slices from `first` on show, slice after slice.
pub(crate) fn look_slices<Q: Queues>(
    alloc: Global,
    table: &Table<Q>,
    first: u32,
    count: u32,
    filter: &Filter,
) -> Result<List<Row>, NoMemory>
    ensures { IfOk result (λ rows. rows ≡ looks table.now.elements first count filter.now) }
{
    let mut rows = List::new(alloc);
    for slice in first..end_of(first, count) {
        rows = joined(rows, table.look(alloc, Place::Slice(slice), filter)?)?;
    }
    Ok(rows)
}
