//! What systems send when the manager of a lock entry is lost, and another gathers its lists from what they have on
//! record.
ghost use Rattle.std.specs.Prelude.{◌≡◌, IfOk};

use grs_base::{Copied, Ctl, NoMemory, Res, SysId, TaskId};
use std::alloc::Global;

/// A lock entry whose manager was lost: who manages it from now on, the set of the systems that have interest in it, and
/// how often a manager of it was lost.
#[derive(Clone, Copy, PartialEq, Eq)]
pub struct Moved {
    pub entry: u32,
    pub manager: SysId,
    pub mask: u32,
    pub epoch: u32,
}

/// What a system has on record of an element of one of its tasks: the resource, the control, its rank among all elements
/// of the lock entry, and whether the task was told that it has control.
#[derive(Drop)]
pub struct PartRec {
    pub res: Res,
    pub task: TaskId,
    pub ctl: Ctl,
    pub rank: u64,
    pub told: bool,
}

impl PartRec {
    /// An equal record.
    pub fn copy(&self, alloc: Global) -> Result<PartRec, NoMemory>
        ensures { IfOk result (λ rec. rec ≡ self.now) }
    {
        Ok(PartRec {
            res: self.res.copy(alloc)?,
            task: self.task,
            ctl: self.ctl,
            rank: self.rank,
            told: self.told,
        })
    }
}

impl Copied for PartRec {
    fn copied(&self, alloc: Global) -> Result<PartRec, NoMemory> {
        self.copy(alloc)
    }
}
