//! Systems, tasks, resources, and the elements that tasks have in their lists.
ghost use Rattle.std.specs.Prelude.{◌≡◌, IfOk};
ghost use Rattle.grs_base.specs.Same.{same_res, same_task};

use super::NoMemory;
use super::list::{Copied, List};
use super::name::{Qname, Rname};
use std::alloc::Global;

/// A system, by its place among the systems of the deck, from 0 to 7.
#[derive(Clone, Copy, Debug, PartialEq, Eq, Hash)]
pub struct SysId(pub u8);

/// A task, by its system, its job and itself: jobs and tasks are numbered from 0 along the lines of their system, and the
/// numbers of tasks go on from one job to the next.
#[derive(Clone, Copy, Debug, PartialEq, Eq, Hash)]
pub struct TaskId {
    pub system: SysId,
    pub job: u16,
    pub task: u16,
}

/// Control of a resource, exclusive or shared.
#[derive(Clone, Copy, Debug, PartialEq, Eq)]
pub enum Ctl {
    /// Exclusive: one task alone owns.
    E,
    /// Shared: tasks own side by side.
    S,
}

/// How an ENQ asks: the values of its RET operand, or ECB. (z/OS MVS Programming: Authorized Assembler Services
/// Reference, "ENQ".)
#[derive(Clone, Copy, Debug, PartialEq, Eq)]
pub enum Ret {
    /// Waits for control. A request that may not be made ends the task.
    RetNone,
    /// Takes control only where it can be had at once.
    RetUse,
    /// Waits for control. A request that may not be made is answered by a code.
    RetHave,
    /// Asks whether control can be had, and takes none.
    RetTest,
    /// Changes shared control to exclusive.
    RetChng,
    /// Is queued, and goes on; an event control block is posted when control comes.
    RetEcb,
}

/// A request that stands in the list of a resource.
#[derive(Clone, Copy, Debug, PartialEq, Eq)]
pub struct Elem {
    /// The task that asked.
    pub task: TaskId,
    /// The control for which it asked, or to which it was changed.
    pub ctl: Ctl,
}

/// A resource. The same names under another kind, system or job are another resource.
#[derive(PartialEq, Eq, Hash)]
pub enum Res {
    /// One job's; `job` is its place in its system.
    Step {
        system: SysId,
        job: u16,
        q: Qname,
        r: Rname,
    },
    /// One system's.
    System {
        system: SysId,
        q: Qname,
        r: Rname,
    },
    /// The whole complex's.
    Systems {
        q: Qname,
        r: Rname,
    },
}

// By a call of its own. A derived one is put in place wherever a resource may go, with a cleared place for each of its parts.
impl Drop for Res {
    fn drop(self) {
        match self {
            Res::Step {
                system: _,
                job: _,
                q: _,
                r: _,
            } => {}
            Res::System {
                system: _,
                q: _,
                r: _,
            } => {}
            Res::Systems { q: _, r: _ } => {}
        }
    }
}

impl Res {
    /// An equal resource.
    pub fn copy(&self, alloc: Global) -> Result<Res, NoMemory>
        ensures { IfOk result (λ r. r ≡ self.now) }
    {
        match self {
            Res::Step { system, job, q, r } => {
                let q = q.copy(alloc)?;
                let r = r.copy(alloc)?;
                Ok(Res::Step {
                    system: *system,
                    job: *job,
                    q,
                    r,
                })
            }
            Res::System { system, q, r } => {
                let q = q.copy(alloc)?;
                let r = r.copy(alloc)?;
                Ok(Res::System {
                    system: *system,
                    q,
                    r,
                })
            }
            Res::Systems { q, r } => {
                let q = q.copy(alloc)?;
                let r = r.copy(alloc)?;
                Ok(Res::Systems { q, r })
            }
        }
    }
}

/// A resource with its list: the first `owners` elements own it, the others wait.
#[derive(Drop)]
pub struct Row {
    pub res: Res,
    pub elems: List<Elem>,
    pub owners: u32,
}

impl Row {
    /// An equal row.
    pub fn copy(&self, alloc: Global) -> Result<Row, NoMemory>
        ensures { IfOk result (λ row. row ≡ self.now) }
    {
        let res = self.res.copy(alloc)?;
        let elems = self.elems.copy(alloc)?;
        Ok(Row {
            res,
            elems,
            owners: self.owners,
        })
    }
}

impl Copied for Row {
    fn copied(&self, alloc: Global) -> Result<Row, NoMemory> {
        self.copy(alloc)
    }
}

/// Whether two resources are one.
pub fn is_same_res(a: &Res, b: &Res) -> bool
    ensures { result ≡ same_res a.now b.now }
{
    a == b
}

/// Whether two tasks are one.
pub fn is_same_task(a: TaskId, b: TaskId) -> bool
    ensures { result ≡ same_task a b }
{
    a == b
}
