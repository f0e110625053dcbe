//! Who is kept away by whom.
ghost use Rattle.std.specs.Prelude.{◌≡◌, ◌++◌, ◌≤◌, length, take, drop, OnOk, IfOk};
ghost use Rattle.std.specs.List.{flat_map};
ghost use Rattle.grs_analyze.specs.Waits.{first_blocker, blocked, blocked_behind, blocked_in};

use super::analysis::Blocked;
use super::walk::excludes;
use grs_base::{Ctl, Elem, List, NoMemory, Res, Row, TaskId};
use ret_codes::owners_among;
use std::alloc::Global;

/// The task of the first of these elements that keeps control of this kind away.
fn first_blocker(ctl: Ctl, elems: &[Elem]) -> Option<TaskId>
    ensures { result ≡ first_blocker ctl elems.now }
{
    for elem in elems {
        if excludes(ctl, elem.ctl) {
            return Some(elem.task);
        }
    }
    None
}

/// Puts an element that waits behind others, if a task keeps it away.
fn put_one(
    alloc: Global,
    res: &Res,
    task: TaskId,
    by: Option<TaskId>,
    out: &mut List<Blocked>,
) -> Result<(), NoMemory>
    ensures { OnOk result (out.new ≡ out.old ++ blocked res.now task by) }
{
    match by {
        None => Ok(()),
        Some(by) => {
            let res = res.copy(alloc)?;
            out.push(Blocked { res, task, by })
        }
    }
}

/// Puts the elements of a list that wait behind others, from this place on.
fn put_behind(
    alloc: Global,
    res: &Res,
    elems: &[Elem],
    first: usize,
    out: &mut List<Blocked>,
) -> Result<(), NoMemory>
    requires { first ≤ length elems.now }
    ensures { OnOk result (out.new ≡ out.old ++ blocked_behind res.now (take first elems.now) (drop first elems.now)) }
{
    for place in first..elems.len() {
        let elem = elems[place];
        let by = first_blocker(elem.ctl, &elems[..place]);
        put_one(alloc, res, elem.task, by, out)?;
    }
    Ok(())
}

/// The elements that wait, row by row, each with the first one before it that keeps it away.
pub(crate) fn all_blocked(alloc: Global, rows: &[Row]) -> Result<List<Blocked>, NoMemory>
    ensures { IfOk result (λ waits. waits ≡ flat_map blocked_in rows.now) }
{
    let mut waits = List::new(alloc);
    for row in rows {
        let elems = row.elems.as_slice();
        put_behind(alloc, &row.res, elems, owners_among(elems), &mut waits)?;
    }
    Ok(waits)
}
