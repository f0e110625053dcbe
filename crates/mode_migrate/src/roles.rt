//! What a system comes to by a table: the entries that it manages and has interest in, and the ranks of all elements.
ghost use Rattle.std.specs.Prelude.{◌≡◌, ◌≢◌, ◌<◌, ◌≤◌, ◌+◌, ◌++◌, ◌∷◌, [], true, cond, filter, length, map, nat_le, IfOk, OnOk};
ghost use Rattle.std.specs.List.{range_with_len, list_all};
ghost use Rattle.grs_base.specs.Limits.{last_number};
ghost use Rattle.grs_wire.specs.LockWords.{is_manager};
ghost use Rattle.lock_structure.specs.RankedRows.{ranks_of};
ghost use Rattle.mode_migrate.specs.Migrate.{managed_by, interested_by, numbered_from, parts_by, part_at, has_small_ranks};
ghost use Rattle.mode_migrate.specs.Groups.{group_at, is_among, manager_of};

use crate::groups::{group, grouped};
use crate::words::{is_among, manager};
use grs_base::{LAST_NUMBER, List, NoMemory, Queues, Row, SysId};
use queue_table::Table;
use std::alloc::Global;

/// What a system is in star mode by a table.
#[derive(Drop)]
pub struct Roles {
    /// The lock entries that it manages.
    pub managed: List<u32>,
    /// The lock entries in which it has interest.
    pub interest: List<u32>,
    /// Of each lock entry the lists of its resources, by name, with the ranks of their elements.
    pub parts: List<List<(Row, List<u64>)>>,
}

/// So many numbers, from this one on.
#[tactic(auto, using(lock_structure::proofs::Ranges::ranges, crate::proofs::SmallRanks::small_ranks))]
fn numbers(alloc: Global, first: u64, count: usize) -> Result<List<u64>, NoMemory>
    requires { first + count ≤ last_number + 1 }
    ensures numbers { IfOk result (λ list. list ≡ range_with_len first count) }
    ensures small { IfOk result (λ list. list_all (λ n. nat_le n last_number) list ≡ true) }
{
    let mut list = List::with_room(alloc, count)?;
    for i in 0..count {
        list.push(first + i as u64)?;
    }
    Ok(list)
}

/// Puts a row with ranks from this number on behind others, and gives the number behind its last.
#[tactic(auto, using(crate::proofs::SmallRanks::small_ranks))]
fn add_row(
    alloc: Global,
    ranked: &mut List<(Row, List<u64>)>,
    row: Row,
    next: u64,
) -> Result<u64, NoMemory>
    requires next { next ≤ last_number + 1 }
    requires small { list_all (λ n. nat_le n last_number) (ranks_of ranked.old) ≡ true }
    ensures rows { OnOk result (ranked.new ≡ ranked.old ++ (row, range_with_len next (length row.elems)) ∷ []) }
    ensures next { IfOk result (λ after. after ≡ next + length row.elems) }
    ensures last { IfOk result (λ after. after ≤ last_number + 1) }
    ensures small { OnOk result (list_all (λ n. nat_le n last_number) (ranks_of ranked.new) ≡ true) }
{
    let count = row.elems.len();
    if count as u64 > LAST_NUMBER + 1 - next {
        return Err(NoMemory);
    }
    let ranks = numbers(alloc, next, count)?;
    ranked.push((row, ranks))?;
    Ok(next + count as u64)
}

/// The rows of a lock entry with the ranks of their elements.
fn numbered(alloc: Global, rows: List<Row>) -> Result<List<(Row, List<u64>)>, NoMemory>
    ensures rows { IfOk result (λ part. part ≡ numbered_from 1 rows) }
    ensures small { IfOk result (λ part. has_small_ranks part ≡ true) }
{
    let mut part = List::with_room(alloc, rows.len())?;
    let mut next = 1;
    for row in rows.into_vec() {
        next = add_row(alloc, &mut part, row, next)?;
    }
    Ok(part)
}

/// The same of all lock entries.
#[tactic(auto, using(crate::proofs::SmallRanks::small_parts))]
fn all_numbered(
    alloc: Global,
    groups: Vec<List<Row>>,
) -> Result<List<List<(Row, List<u64>)>>, NoMemory>
    ensures parts { IfOk result (λ parts. parts ≡ map (numbered_from 1) groups.items) }
    ensures small { IfOk result (λ parts. list_all has_small_ranks parts ≡ true) }
{
    let mut parts = List::with_room(alloc, groups.len())?;
    for rows in groups {
        parts.push(numbered(alloc, rows)?)?;
    }
    Ok(parts)
}

/// Whether a system manages a lock entry with these rows.
fn manages(rows: &[Row], system: SysId) -> bool
    ensures { result ≡ is_manager (manager_of rows.now) system }
{
    match manager(rows) {
        Some(least) => least.0 == system.0,
        None => false,
    }
}

/// Puts a lock entry behind others where it passes.
fn push_if(list: &mut List<u32>, entry: u32, passes: bool) -> Result<(), NoMemory>
    ensures { OnOk result (list.new ≡ list.old ++ cond passes (entry ∷ []) []) }
{
    if passes { list.push(entry) } else { Ok(()) }
}

/// The lock entries that a system manages.
#[tactic(auto, using(lock_structure::proofs::Ranges::ranges))]
fn managed_entries(
    alloc: Global,
    groups: &Vec<List<Row>>,
    entries: u32,
    system: SysId,
) -> Result<List<u32>, NoMemory>
    requires { length groups.now.items ≡ entries }
    ensures { IfOk result (λ managed. managed ≡ filter (λ e. is_manager (manager_of (group_at groups.now.items e)) system) (range_with_len 0 entries)) }
{
    let mut managed = List::new(alloc);
    for entry in 0..entries {
        push_if(&mut managed, entry, manages(group(groups, entry), system))?;
    }
    Ok(managed)
}

/// The lock entries in which a system has interest.
#[tactic(auto, using(lock_structure::proofs::Ranges::ranges))]
fn interesting_entries(
    alloc: Global,
    groups: &Vec<List<Row>>,
    entries: u32,
    system: SysId,
) -> Result<List<u32>, NoMemory>
    requires { length groups.now.items ≡ entries }
    ensures { IfOk result (λ interest. interest ≡ filter (λ e. is_among (group_at groups.now.items e) system.0) (range_with_len 0 entries)) }
{
    let mut interest = List::new(alloc);
    for entry in 0..entries {
        push_if(&mut interest, entry, is_among(group(groups, entry), system))?;
    }
    Ok(interest)
}

/// What a system comes to by a table, where there are so many lock entries. It manages the entries in which it is the
/// least system that has elements, and has interest in all in which it has any. The elements on resources of an entry are
/// ranked 1, 2 and so on, resources by name and the elements of one in the order of its list; all systems rank them
/// alike. NoMemory comes where there is none for the copies, or an element would have a rank above `LAST_NUMBER`.
#[tactic(auto, using(crate::proofs::GroupLaws::roles))]
pub fn roles_of<Q: Queues>(
    alloc: Global,
    table: &Table<Q>,
    entries: u32,
    system: SysId,
) -> Result<Roles, NoMemory>
    requires { entries ≢ 0 }
    ensures managed { IfOk result (λ roles. roles.managed ≡ managed_by entries system table.now.elements) }
    ensures interest { IfOk result (λ roles. roles.interest ≡ interested_by entries system table.now.elements) }
    ensures parts { IfOk result (λ roles. roles.parts ≡ parts_by entries table.now.elements) }
    ensures small { IfOk result (λ roles. list_all has_small_ranks roles.parts ≡ true) }
{
    let groups = grouped(alloc, table.rows(alloc)?, entries)?;
    let managed = managed_entries(alloc, &groups, entries, system)?;
    let interest = interesting_entries(alloc, &groups, entries, system)?;
    let parts = all_numbered(alloc, groups)?;
    Ok(Roles {
        managed,
        interest,
        parts,
    })
}

impl Roles {
    /// The rows of a lock entry with their ranks: what its manager keeps of it from then on.
    pub fn part(&self, entry: u32) -> &List<(Row, List<u64>)>
        requires { entry < length self.now.parts }
        ensures { result.now ≡ part_at self.now.parts entry }
    {
        &self.parts.as_slice()[entry as usize]
    }
}
