//! The history of a run.
ghost use Rattle.std.specs.Prelude.{◌≡◌, IfOk};

use grs_base::{
    Code, Copied, Ctl, Filter, List, NoMemory, Place, Res, Ret, Row, SysId, TaskId, copy_all,
};
use std::alloc::Global;

/// A request at its place in the history, with the reply that was given to it; or a removal.
#[derive(Drop)]
pub enum HistEntry {
    /// An ENQ or RESERVE, as its scope was resolved.
    Enq {
        task: TaskId,
        res: Res,
        ctl: Ctl,
        ret: Ret,
        code: Code,
    },
    /// A DEQ; `have` is RET=HAVE.
    Deq {
        task: TaskId,
        res: Res,
        have: bool,
        code: Code,
    },
    /// What an ending task had, taken out wherever it stood.
    Release {
        task: TaskId,
        res: Res,
    },
    /// A look at one place, with the lists that it showed.
    Look {
        task: TaskId,
        place: Place,
        filter: Filter,
        rows: List<Row>,
    },
    /// The system `by` removed the system `target`.
    Remove {
        by: SysId,
        target: SysId,
    },
}

impl HistEntry {
    /// An equal entry.
    pub fn copy(&self, alloc: Global) -> Result<HistEntry, NoMemory>
        ensures { IfOk result (λ entry. entry ≡ self.now) }
    {
        match self {
            HistEntry::Enq {
                task,
                res,
                ctl,
                ret,
                code,
            } => {
                let res = res.copy(alloc)?;
                Ok(HistEntry::Enq {
                    task: *task,
                    res,
                    ctl: *ctl,
                    ret: *ret,
                    code: *code,
                })
            }
            HistEntry::Deq {
                task,
                res,
                have,
                code,
            } => {
                let res = res.copy(alloc)?;
                Ok(HistEntry::Deq {
                    task: *task,
                    res,
                    have: *have,
                    code: *code,
                })
            }
            HistEntry::Release { task, res } => {
                let res = res.copy(alloc)?;
                Ok(HistEntry::Release { task: *task, res })
            }
            HistEntry::Look {
                task,
                place,
                filter,
                rows,
            } => {
                let filter = filter.copy(alloc)?;
                let rows = copy_all(alloc, rows.as_slice())?;
                Ok(HistEntry::Look {
                    task: *task,
                    place: *place,
                    filter,
                    rows,
                })
            }
            HistEntry::Remove { by, target } => Ok(HistEntry::Remove {
                by: *by,
                target: *target,
            }),
        }
    }
}

impl Copied for HistEntry {
    fn copied(&self, alloc: Global) -> Result<HistEntry, NoMemory> {
        self.copy(alloc)
    }
}
