//! What an analysis tells.
ghost use Rattle.std.specs.Prelude.{◌≡◌, ◌⊎◌, true, false, List as Items, [], IfOk};
ghost use Rattle.grs_base.specs.declared.resource.TaskId.{TaskId as TaskValue};
ghost use Rattle.grs_analyze.specs.Depends.{AreApart};
ghost use Rattle.grs_analyze.specs.Walk.{is_cycle};
ghost use Rattle.grs_analyze.specs.Waits.{analysis as analysis_of};

use super::blocked::all_blocked;
use super::numbered::number_rows;
use super::walk::cycle;
use grs_base::{List, NoMemory, Res, Row, TaskId};
use std::alloc::Global;

/// An element that waits: its resource, its task, and the task of the first element before it that keeps it away.
#[derive(Drop)]
pub struct Blocked {
    pub res: Res,
    pub task: TaskId,
    pub by: TaskId,
}

/// The elements that wait, list by list and in order, and the tasks of a cycle, in which each depends on the next and
/// the last on the first. There is none where `cycle` is empty.
#[derive(Drop)]
pub struct Analysis {
    pub waits: List<Blocked>,
    pub cycle: List<TaskId>,
}

/// The analysis of lists: who waits for whom, and a cycle where there is one. Each task of the cycle depends on the
/// next, and the last on the first; there is none only where no tasks depend on one another in a circle. A list's own
/// count of owners isn't looked at. Want of memory is `NoMemory`.
pub fn analyze(alloc: Global, rows: &List<Row>) -> Result<Analysis, NoMemory>
    requires { AreApart rows.now }
    ensures analysis { IfOk result (λ analysis. analysis ≡ analysis_of rows.now) }
    ensures cycle { IfOk result (λ analysis. (analysis.cycle ≡ []) ⊎ (is_cycle rows.now analysis.cycle ≡ true)) }
    ensures none { IfOk result (λ analysis. analysis.cycle ≡ [] → (ts : Items TaskValue) → is_cycle rows.now ts ≡ false) }
{
    let rows = rows.as_slice();
    let waits = all_blocked(alloc, rows)?;
    let numbered = number_rows(alloc, rows)?;
    let cycle = cycle(alloc, rows, &numbered)?;
    Ok(Analysis { waits, cycle })
}
