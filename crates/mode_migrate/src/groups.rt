//! The rows of a table by their lock entries, so that what is asked of an entry costs by its own rows.
ghost use Rattle.std.specs.Prelude.{◌≡◌, ◌≢◌, ◌<◌, [], length, IfOk, IfSome, OnOk};
ghost use Rattle.lock_structure.specs.Entries.{entry_of_res};
ghost use Rattle.mode_migrate.specs.Groups.{groups_of, group_at, with_row};

use grs_base::{List, NoMemory, Res, Row, entry_of, slice_of};
use std::alloc::Global;

/// The lock entry of a row's resource, if it has one.
fn entry_of_row(row: &Row, entries: u32) -> Option<u32>
    requires { entries ≢ 0 }
    ensures entry { result ≡ entry_of_res entries row.now.res }
    ensures below { IfSome result (λ entry. entry < entries) }
{
    match &row.res {
        Res::Systems { q, r } => Some(entry_of(slice_of(q, r), entries)),
        _ => None,
    }
}

/// So many entries without rows.
#[tactic(auto, using(lock_structure::proofs::Ranges::ranges))]
fn empty_groups(alloc: Global, entries: u32) -> Result<Vec<List<Row>>, NoMemory>
    ensures { IfOk result (λ groups. groups.items ≡ groups_of entries []) }
{
    let mut groups = Vec::new(alloc);
    for _ in 0..entries {
        if groups.push(List::new(alloc)).is_err() {
            return Err(NoMemory);
        }
    }
    Ok(groups)
}

/// Puts a row behind those of its lock entry; one of a resource without an entry is let go.
fn put_row(groups: &mut Vec<List<Row>>, row: Row, entries: u32) -> Result<(), NoMemory>
    requires entries { entries ≢ 0 }
    requires count { length groups.old.items ≡ entries }
    ensures { OnOk result (groups.new.items ≡ with_row entries row groups.old.items) }
{
    match entry_of_row(&row, entries) {
        Some(entry) => groups[entry as usize].push(row),
        None => Ok(()),
    }
}

/// Of each lock entry its rows, in their order.
#[tactic(auto, using(crate::proofs::GroupLaws::grouped))]
pub(crate) fn grouped(
    alloc: Global,
    rows: List<Row>,
    entries: u32,
) -> Result<Vec<List<Row>>, NoMemory>
    requires { entries ≢ 0 }
    ensures { IfOk result (λ groups. groups.items ≡ groups_of entries rows) }
{
    let mut groups = empty_groups(alloc, entries)?;
    for row in rows.into_vec() {
        put_row(&mut groups, row, entries)?;
    }
    Ok(groups)
}

/// The rows of a lock entry.
pub(crate) fn group(groups: &Vec<List<Row>>, entry: u32) -> &[Row]
    requires { entry < length groups.now.items }
    ensures { result.now ≡ group_at groups.now.items entry }
{
    groups[entry as usize].as_slice()
}
