//! Requests and their answers.
ghost use Rattle.std.specs.Prelude.{◌≡◌, IfOk};
ghost use Rattle.std.specs.Option.{option_copied};
ghost use Rattle.grs_wire.specs.Wants as wants;

use grs_base::{Code, Copied, Ctl, Filter, List, NoMemory, Res, Ret, Row, SysId, TaskId, copy_all};
use std::alloc::Global;

/// What a task asks for. `full` tells whether the task had as many elements as it may when it asked.
#[derive(PartialEq, Eq, Drop)]
pub enum Want {
    /// Asks for control.
    Enq {
        res: Res,
        ctl: Ctl,
        ret: Ret,
        full: bool,
    },
    /// Gives control up; `have` is RET=HAVE.
    Deq {
        res: Res,
        have: bool,
    },
    /// Takes the element out wherever it stands.
    Release {
        res: Res,
    },
    /// Looks at `count` slices of the Systems resources, from slice `first` on.
    Look {
        first: u32,
        count: u32,
        filter: Filter,
    },
}

/// The resource that is spoken of, if one is.
pub fn res_of(want: &Want) -> Option<&Res>
    ensures { option_copied result ≡ wants.res_wanted want.now }
{
    match want {
        Want::Enq { res, .. } | Want::Deq { res, .. } | Want::Release { res } => Some(res),
        Want::Look { .. } => None,
    }
}

/// Whether a request for this is for the whole complex. Looks at slices are.
pub fn is_for_all(res: Option<&Res>) -> bool
    ensures { result ≡ wants.is_for_all (option_copied res.entry) }
{
    matches!(res, None | Some(Res::Systems { .. }))
}

/// A request: who asks, and what for.
#[derive(Drop)]
pub struct Req {
    pub task: TaskId,
    pub want: Want,
}

/// The answer to a request: a code, or for looks the lists that they show. A RELEASE is answered with the
/// code 00.
#[derive(Drop)]
pub enum Answer {
    /// The code of an ENQ, a DEQ or a RELEASE.
    Coded(Code),
    /// The lists that looks show.
    Rows(List<Row>),
}

/// What an event fixed: what has its place in the history from then on.
#[derive(Drop)]
pub enum Fixed {
    /// A request.
    Asked(Req),
    /// A look at the Step and System resources of the task's system.
    LocalLook { task: TaskId, filter: Filter },
    /// A system was removed.
    Purged { target: SysId },
}

impl Want {
    /// An equal want.
    pub fn copy(&self, alloc: Global) -> Result<Want, NoMemory>
        ensures { IfOk result (λ want. want ≡ self.now) }
    {
        match self {
            Want::Enq {
                res,
                ctl,
                ret,
                full,
            } => {
                let res = res.copy(alloc)?;
                Ok(Want::Enq {
                    res,
                    ctl: *ctl,
                    ret: *ret,
                    full: *full,
                })
            }
            Want::Deq { res, have } => {
                let res = res.copy(alloc)?;
                Ok(Want::Deq { res, have: *have })
            }
            Want::Release { res } => {
                let res = res.copy(alloc)?;
                Ok(Want::Release { res })
            }
            Want::Look {
                first,
                count,
                filter,
            } => {
                let filter = filter.copy(alloc)?;
                Ok(Want::Look {
                    first: *first,
                    count: *count,
                    filter,
                })
            }
        }
    }
}

impl Req {
    /// An equal request.
    pub fn copy(&self, alloc: Global) -> Result<Req, NoMemory>
        ensures { IfOk result (λ req. req ≡ self.now) }
    {
        let want = self.want.copy(alloc)?;
        Ok(Req {
            task: self.task,
            want,
        })
    }
}

impl Copied for Req {
    fn copied(&self, alloc: Global) -> Result<Req, NoMemory> {
        self.copy(alloc)
    }
}

impl Answer {
    /// An equal answer.
    pub fn copy(&self, alloc: Global) -> Result<Answer, NoMemory>
        ensures { IfOk result (λ answer. answer ≡ self.now) }
    {
        match self {
            Answer::Coded(code) => Ok(Answer::Coded(*code)),
            Answer::Rows(rows) => Ok(Answer::Rows(copy_all(alloc, rows.as_slice())?)),
        }
    }
}

impl Fixed {
    /// An equal value.
    pub fn copy(&self, alloc: Global) -> Result<Fixed, NoMemory>
        ensures { IfOk result (λ fixed. fixed ≡ self.now) }
    {
        match self {
            Fixed::Asked(req) => Ok(Fixed::Asked(req.copy(alloc)?)),
            Fixed::LocalLook { task, filter } => Ok(Fixed::LocalLook {
                task: *task,
                filter: filter.copy(alloc)?,
            }),
            Fixed::Purged { target } => Ok(Fixed::Purged { target: *target }),
        }
    }
}

impl Copied for Fixed {
    fn copied(&self, alloc: Global) -> Result<Fixed, NoMemory> {
        self.copy(alloc)
    }
}
