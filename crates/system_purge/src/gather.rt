//! The records of a lock entry whose manager was lost, as the systems that are left have them: which of them count, and
//! their order by rank. Nothing here knows who sends them, nor when.
ghost use Rattle.std.specs.Prelude.{◌≡◌, ◌≢◌, ◌++◌, true, filter, nat_eq, IfOk, OnOk};
ghost use Rattle.std.specs.List.{list_any, IsDistinct};
ghost use Rattle.std.specs.List.Sorted.{IsPermutation, IsNonDecreasingBy};
ghost use Rattle.lock_structure.specs.Entries.{entry_of_res, is_entry};
ghost use Rattle.system_purge.specs.Gather as gather;
ghost use Rattle.system_purge.specs.Gather.{ranks, AreInOrder, clash, with_counting, are_clear, is_of_part};

use grs_base::{
    LAST_NUMBER, List, NoMemory, Res, SysId, copy_all, entry_of, is_same_res, is_same_task,
    slice_of,
};
use grs_wire::PartRec;
use std::alloc::Global;

/// Puts equal records behind others.
fn add_all(alloc: Global, recs: &mut List<PartRec>, more: &[PartRec]) -> Result<(), NoMemory>
    ensures { OnOk result (recs.new ≡ recs.old ++ more.now) }
{
    for rec in more {
        recs.push(rec.copy(alloc)?)?;
    }
    Ok(())
}

/// A system's own records, and behind them those of the parts in their order.
fn all_of(
    alloc: Global,
    own: &List<PartRec>,
    parts: &List<List<PartRec>>,
) -> Result<List<PartRec>, NoMemory>
    ensures { IfOk result (λ recs. recs ≡ gather.all_of own.now parts.now) }
{
    let mut recs = copy_all(alloc, own.as_slice())?;
    for part in parts.as_slice() {
        add_all(alloc, &mut recs, part.as_slice())?;
    }
    Ok(recs)
}

/// The records in the order of ranks.
fn by_rank(recs: List<PartRec>) -> List<PartRec>
    ensures same { IsPermutation recs result }
    ensures sorted { IsNonDecreasingBy (λ r. r.rank) result }
{
    let mut recs = recs.into_vec();
    recs.sort_unstable_by_key(|rec| rec.rank);
    List::from_vec(recs)
}

/// The same of records of which no two have one rank.
fn in_order(recs: List<PartRec>) -> List<PartRec>
    requires { IsDistinct nat_eq (ranks recs) }
    ensures { AreInOrder recs result }
{
    by_rank(recs)
}

/// The records of a system and of the parts of others, in the order of their ranks, of which no two are equal. NoMemory comes
/// where there is none for the list.
pub fn merge_parts(
    alloc: Global,
    own: &List<PartRec>,
    parts: &List<List<PartRec>>,
) -> Result<List<PartRec>, NoMemory>
    requires { IsDistinct nat_eq (ranks (gather.all_of own.now parts.now)) }
    ensures { IfOk result (λ recs. AreInOrder (gather.all_of own.now parts.now) recs) }
{
    let recs = all_of(alloc, own, parts)?;
    Ok(in_order(recs))
}

/// Whether only the first of two records counts.
fn clashes(a: &PartRec, b: &PartRec) -> bool
    ensures { result ≡ clash a.now b.now }
{
    a.rank == b.rank || (is_same_task(a.task, b.task) && is_same_res(&a.res, &b.res))
}

/// Whether a record clashes with one of these.
fn clashes_with_any(rec: &PartRec, recs: &[PartRec]) -> bool
    ensures { result ≡ list_any (clash rec.now) recs.now }
{
    recs.iter().any(|other| clashes(rec, other))
}

/// Puts a record behind those that count, where it clashes with none of them.
fn add_counting(recs: &mut List<PartRec>, rec: PartRec) -> Result<(), NoMemory>
    ensures { OnOk result (recs.new ≡ with_counting recs.old rec) }
{
    if clashes_with_any(&rec, recs.as_slice()) {
        return Ok(());
    }
    recs.push(rec)
}

/// The records that count: of two that have one rank, or are of one task and resource, only the first.
#[tactic(auto, using(crate::proofs::Counting::clear))]
fn counting(alloc: Global, all: List<PartRec>) -> Result<List<PartRec>, NoMemory>
    ensures count { IfOk result (λ recs. recs ≡ gather.counting all) }
    ensures clear { IfOk result (λ recs. are_clear recs ≡ true) }
{
    let mut recs = List::new(alloc);
    for rec in all.into_vec() {
        add_counting(&mut recs, rec)?;
    }
    Ok(recs)
}

/// What is gathered of a lock entry: the records that count of a system and of the parts of others, in the order of their
/// ranks. Of two that have one rank, or are of one task and resource, only the first counts, the own ones first and
/// then the parts in their order. NoMemory comes where there is none for the list.
pub fn gathered(
    alloc: Global,
    own: &List<PartRec>,
    parts: &List<List<PartRec>>,
) -> Result<List<PartRec>, NoMemory>
    ensures order { IfOk result (λ recs. AreInOrder (gather.counting (gather.all_of own.now parts.now)) recs) }
    ensures recs { IfOk result (λ recs. recs ≡ gather.gathered own.now parts.now) }
    ensures clear { IfOk result (λ recs. are_clear recs ≡ true) }
{
    let all = all_of(alloc, own, parts)?;
    let recs = counting(alloc, all)?;
    Ok(in_order(recs))
}

/// Whether a resource is of a lock entry, where there are so many.
fn is_of_entry(res: &Res, entries: u32, entry: u32) -> bool
    requires { entries ≢ 0 }
    ensures { result ≡ is_entry entry (entry_of_res entries res.now) }
{
    match res {
        Res::Systems { q, r } => entry_of(slice_of(q, r), entries) == entry,
        _ => false,
    }
}

/// Whether a record counts that a system sent of a lock entry: its resource is of the entry, its task of the system, and its
/// rank isn't past the last number.
fn is_right(rec: &PartRec, entries: u32, entry: u32, system: SysId) -> bool
    requires { entries ≢ 0 }
    ensures { result ≡ is_of_part entries entry system rec.now }
{
    is_of_entry(&rec.res, entries, entry)
        && rec.task.system.0 == system.0
        && rec.rank <= LAST_NUMBER
}

/// Leaves of records those that count.
fn keep_right(recs: &mut Vec<PartRec>, entries: u32, entry: u32, system: SysId)
    requires { entries ≢ 0 }
    ensures { recs.new.items ≡ filter (is_of_part entries entry system) recs.old.items }
{
    recs.retain(|rec| is_right(rec, entries, entry, system));
}

/// A part that a system sent of a lock entry, without the records in it that don't count: those of resources of other
/// entries, of tasks of other systems, and of ranks past the last number. It takes no memory.
pub fn part_of_entry(part: List<PartRec>, entries: u32, entry: u32, system: SysId) -> List<PartRec>
    requires { entries ≢ 0 }
    ensures { result ≡ filter (is_of_part entries entry system) part }
{
    let mut recs = part.into_vec();
    keep_right(&mut recs, entries, entry, system);
    List::from_vec(recs)
}
