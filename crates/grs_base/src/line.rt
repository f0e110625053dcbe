//! What a task's lines say: the requests that a program makes by macros, and the commands that show lists. (z/OS MVS
//! Programming: Authorized Assembler Services Reference, "ENQ", "DEQ", "GQSCAN" and "RESERVE"; z/OS MVS System Commands,
//! "DISPLAY GRS".)
ghost use Rattle.std.specs.Prelude.{◌≡◌, IfOk};

use super::NoMemory;
use super::list::{Copied, List, copy_all};
use super::look::Filter;
use super::name::{Qname, Rname};
use super::resource::{Ctl, Ret};
use std::alloc::Global;

/// Who shares a resource: one job, one system, or the whole complex.
#[derive(Clone, Copy, Debug, PartialEq, Eq)]
pub enum Scope {
    /// One job.
    Step,
    /// One system.
    System,
    /// The whole complex.
    Systems,
}

/// A resource that an ENQ asks for: its names, the control that is wanted, and who shares it.
#[derive(Drop)]
pub struct Item {
    pub q: Qname,
    pub r: Rname,
    pub ctl: Ctl,
    pub scope: Scope,
}

/// One line of a task. `q` and `r` are the names of the resource that it speaks of, and `rnl` tells whether the name
/// lists are looked at.
#[derive(Drop)]
pub enum Line {
    /// Asks for a resource. There is one item until an ENQ can name several.
    Enq {
        items: List<Item>,
        ret: Ret,
        rnl: bool,
    },
    /// An ENQ of a resource of the whole complex that stands for the reserve of a device, whose number is `unit`.
    Reserve {
        q: Qname,
        r: Rname,
        ctl: Ctl,
        unit: u16,
        ret: Ret,
        rnl: bool,
    },
    /// Gives a resource up. `have` is RET=HAVE. The unit, which a deck may give, changes nothing.
    Deq {
        q: Qname,
        r: Rname,
        scope: Scope,
        have: bool,
        unit: Option<u16>,
        rnl: bool,
    },
    /// Waits until control of a resource was told.
    Wait {
        q: Qname,
        r: Rname,
        scope: Scope,
        rnl: bool,
    },
    /// Shows the lists of the own system, or (`global`) those of the whole complex. The filter isn't
    /// `Contended`.
    Gqscan {
        global: bool,
        filter: Filter,
    },
    /// Shows the lists on which somebody waits.
    DisplayC,
    /// Shows the lists of these names.
    DisplayRes {
        q: Qname,
        r: Rname,
    },
}

impl Item {
    /// An equal item.
    pub fn copy(&self, alloc: Global) -> Result<Item, NoMemory>
        ensures { IfOk result (λ item. item ≡ self.now) }
    {
        let q = self.q.copy(alloc)?;
        let r = self.r.copy(alloc)?;
        Ok(Item {
            q,
            r,
            ctl: self.ctl,
            scope: self.scope,
        })
    }
}

impl Copied for Item {
    fn copied(&self, alloc: Global) -> Result<Item, NoMemory> {
        self.copy(alloc)
    }
}

impl Line {
    /// An equal line.
    pub fn copy(&self, alloc: Global) -> Result<Line, NoMemory>
        ensures { IfOk result (λ line. line ≡ self.now) }
    {
        match self {
            Line::Enq { items, ret, rnl } => Ok(Line::Enq {
                items: copy_all(alloc, items.as_slice())?,
                ret: *ret,
                rnl: *rnl,
            }),
            Line::Reserve {
                q,
                r,
                ctl,
                unit,
                ret,
                rnl,
            } => {
                let q = q.copy(alloc)?;
                let r = r.copy(alloc)?;
                Ok(Line::Reserve {
                    q,
                    r,
                    ctl: *ctl,
                    unit: *unit,
                    ret: *ret,
                    rnl: *rnl,
                })
            }
            Line::Deq {
                q,
                r,
                scope,
                have,
                unit,
                rnl,
            } => {
                let q = q.copy(alloc)?;
                let r = r.copy(alloc)?;
                Ok(Line::Deq {
                    q,
                    r,
                    scope: *scope,
                    have: *have,
                    unit: *unit,
                    rnl: *rnl,
                })
            }
            Line::Wait { q, r, scope, rnl } => {
                let q = q.copy(alloc)?;
                let r = r.copy(alloc)?;
                Ok(Line::Wait {
                    q,
                    r,
                    scope: *scope,
                    rnl: *rnl,
                })
            }
            Line::Gqscan { global, filter } => Ok(Line::Gqscan {
                global: *global,
                filter: filter.copy(alloc)?,
            }),
            Line::DisplayC => Ok(Line::DisplayC),
            Line::DisplayRes { q, r } => {
                let q = q.copy(alloc)?;
                let r = r.copy(alloc)?;
                Ok(Line::DisplayRes { q, r })
            }
        }
    }
}

impl Copied for Line {
    fn copied(&self, alloc: Global) -> Result<Line, NoMemory> {
        self.copy(alloc)
    }
}
