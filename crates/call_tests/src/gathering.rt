//! The records of a lock entry whose manager was lost, in the order of their ranks, as a caller merges them who knows that no two
//! ranks are equal. Systems gather by another call, which looks for records that clash.
ghost use Rattle.std.specs.Prelude.{◌≡◌, IfOk};
ghost use Rattle.call_tests.specs.Parts.{rec_of, own_recs, sent_recs};

use crate::manager::{letter, named};
use grs_base::{Ctl, List, NameFault, NoMemory, SysId, TaskId};
use grs_wire::PartRec;
use std::alloc::Global;
use std::test::Fail;
use system_purge::merge_parts;

/// A record of the first task of a system, of the resource of this rname.
fn rec(
    alloc: Global,
    system: u8,
    rname: &[u8],
    ctl: Ctl,
    rank: u64,
    told: bool,
) -> Result<PartRec, NameFault>
    ensures { IfOk result (λ rec. rec ≡ rec_of system rname.now ctl rank told) }
{
    let res = named(alloc, rname)?;
    let task = TaskId {
        system: SysId(system),
        job: 0,
        task: 0,
    };
    Ok(PartRec {
        res,
        task,
        ctl,
        rank,
        told,
    })
}

/// A system's own records, not by rank.
fn own(alloc: Global) -> Result<List<PartRec>, NameFault>
    ensures { IfOk result (λ recs. recs ≡ own_recs) }
{
    let mut recs = List::new(alloc);
    recs.push(rec(alloc, 1, b"R", Ctl::S, 4, true)?)?;
    recs.push(rec(alloc, 1, b"Q", Ctl::E, 7, false)?)?;
    Ok(recs)
}

/// The parts of three others, one of which has none.
fn parts(alloc: Global) -> Result<List<List<PartRec>>, NameFault>
    ensures { IfOk result (λ parts. parts ≡ sent_recs) }
{
    let mut first = List::new(alloc);
    first.push(rec(alloc, 3, b"Q", Ctl::E, 9, false)?)?;
    first.push(rec(alloc, 3, b"R", Ctl::S, 3, true)?)?;
    let mut last = List::new(alloc);
    last.push(rec(alloc, 2, b"Q", Ctl::S, 2, true)?)?;
    let mut parts = List::new(alloc);
    parts.push(first)?;
    parts.push(List::new(alloc))?;
    parts.push(last)?;
    Ok(parts)
}

fn merged_with(
    alloc: Global,
    own: &List<PartRec>,
    parts: &List<List<PartRec>>,
) -> Result<List<PartRec>, NoMemory>
    requires own { own.now ≡ own_recs }
    requires parts { parts.now ≡ sent_recs }
{
    merge_parts(alloc, own, parts)
}

fn merged(alloc: Global) -> Result<List<PartRec>, NameFault> {
    let own = own(alloc)?;
    let parts = parts(alloc)?;
    Ok(merged_with(alloc, &own, &parts)?)
}

/// Of each record its rank, its system, its resource by its letter, its control, and whether it was told.
fn shown(alloc: Global, recs: &List<PartRec>) -> Result<List<(u64, u8, u8, Ctl, bool)>, NoMemory> {
    let mut shown = List::new(alloc);
    for rec in recs.as_slice() {
        shown.push((
            rec.rank,
            rec.task.system.0,
            letter(&rec.res),
            rec.ctl,
            rec.told,
        ))?;
    }
    Ok(shown)
}

#[test]
fn records_are_merged_by_rank(rt: HostRuntime) -> Result<(), Fail> {
    let recs = merged(rt.alloc())?;
    let shown = shown(rt.alloc(), &recs)?;
    let expected = [
        (2, 2, b'Q', Ctl::S, true),
        (3, 3, b'R', Ctl::S, true),
        (4, 1, b'R', Ctl::S, true),
        (7, 1, b'Q', Ctl::E, false),
        (9, 3, b'Q', Ctl::E, false),
    ];
    assert_eq!(rt; shown.as_slice(), &expected[..]);
    Ok(())
}
