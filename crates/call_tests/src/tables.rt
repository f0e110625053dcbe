//! Which resources a table knows. One without elements stays until three quarters of what the table knows are such, and 64 at
//! least; then all of them leave.
use grs_base::{Ctl, NameFault, Qname, Res, Ret, Rname, SysId, TaskId};
use qel_store::LinkedQueues;
use queue_table::Table;
use std::alloc::Global;
use std::test::Fail;

const TASK: TaskId = TaskId {
    system: SysId(0),
    job: 0,
    task: 0,
};

/// The resource of a number.
fn resource(alloc: Global, number: u8) -> Result<Res, NameFault> {
    let q = Qname::new(alloc, b"A")?;
    let r = Rname::new(alloc, &[number])?;
    Ok(Res::Systems { q, r })
}

fn ask(alloc: Global, table: &mut Table<LinkedQueues>, number: u8) -> Result<(), NameFault> {
    let res = resource(alloc, number)?;
    table.reserve(&res)?;
    let _code = table.enq(res, TASK, Ctl::E, Ret::RetNone, false);
    Ok(())
}

fn give_back(alloc: Global, table: &mut Table<LinkedQueues>, number: u8) -> Result<(), NameFault> {
    let res = resource(alloc, number)?;
    let _code = table.deq(&res, TASK, false);
    Ok(())
}

/// How many resources are known where a task asks for so many, and then gives so many back.
fn known(alloc: Global, asked: u8, given: u8) -> Result<usize, NameFault> {
    let mut table = Table::new(alloc, LinkedQueues::new(alloc));
    for number in 0..asked {
        ask(alloc, &mut table, number)?;
    }
    for number in 0..given {
        give_back(alloc, &mut table, number)?;
    }
    Ok(table.known())
}

#[test]
fn resources_without_elements_leave(rt: HostRuntime) -> Result<(), Fail> {
    for (asked, given, left) in [
        (63, 63, 63),
        (64, 63, 64),
        (64, 64, 0),
        (200, 149, 200),
        (200, 150, 50),
    ] {
        assert_eq!(rt; known(rt.alloc(), asked, given)?, left);
    }
    Ok(())
}
