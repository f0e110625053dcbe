//! What a notice tells.
ghost use Rattle.std.specs.Prelude.{◌≡◌, IfOk};

use grs_base::{NoMemory, Res};
use std::alloc::Global;

/// What became of the contention of a resource. A resource is contended where somebody waits for it.
#[derive(Clone, Copy, Debug, PartialEq, Eq)]
pub enum What {
    /// It is contended, and wasn't.
    Begin,
    /// It was contended and still is, and its list is another.
    Change,
    /// It was contended, and isn't any more.
    End,
}

/// A notice of a resource, with the numbers of its owners and of its waiters by the list as it is then.
#[derive(Drop)]
pub struct Notice {
    pub what: What,
    pub res: Res,
    pub owners: u32,
    pub waiters: u32,
}

impl Notice {
    /// An equal notice.
    pub fn copy(&self, alloc: Global) -> Result<Notice, NoMemory>
        ensures { IfOk result (λ notice. notice ≡ self.now) }
    {
        let res = self.res.copy(alloc)?;
        Ok(Notice {
            what: self.what,
            res,
            owners: self.owners,
            waiters: self.waiters,
        })
    }
}

/// A notice with the number of its entry in a history, from 1.
#[derive(Drop)]
pub struct Noted {
    pub entry: u64,
    pub notice: Notice,
}
