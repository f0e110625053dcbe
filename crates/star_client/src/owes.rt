//! To whom a system owes its part of a lock entry, whose manager was lost. Nothing here knows what the part is.
ghost use Rattle.std.specs.Prelude.{◌≡◌, None, replicate, IfOk};
ghost use Rattle.star_client.specs.Owes as owes;

use grs_base::{NoMemory, SysId};
use std::alloc::Global;
use std::marker::Model;

/// To whom a system owes its parts, seen as the manager to whom it owes its part of each lock entry, if it does.
#[derive(Drop)]
pub struct Owes {
    to: Vec<Option<SysId>>,
}

impl Model for Owes {
    ghost use Rattle.star_client.specs.Owes as owes;

    ghost Value = { owes.OwesView };

    ghost view = { λ a. a.to.items };
}

/// Of so many lock entries no part is owed.
fn none_owed(alloc: Global, entries: u32) -> Result<Vec<Option<SysId>>, NoMemory>
    ensures { IfOk result (λ to. to.items ≡ replicate entries None) }
{
    let mut to = Vec::new(alloc);
    for _ in 0..entries {
        if to.push(None).is_err() {
            return Err(NoMemory);
        }
    }
    Ok(to)
}

impl Owes {
    /// Of so many lock entries a system owes no part.
    pub fn new(alloc: Global, entries: u32) -> Result<Owes, NoMemory>
        ensures { IfOk result (λ all. all ≡ replicate entries None) }
    {
        Ok(Owes {
            to: none_owed(alloc, entries)?,
        })
    }

    /// The manager to whom the part of an entry is owed, if it is.
    pub fn to(&self, entry: u32) -> Option<SysId>
        ensures { result ≡ owes.owed self.now entry }
    {
        match self.to.as_slice().get(entry as usize) {
            Some(to) => *to,
            None => None,
        }
    }

    /// The part of an entry is owed to this manager from now on, or to none.
    pub fn set(&mut self, entry: u32, to: Option<SysId>)
        ensures { self.new ≡ owes.owing self.old entry to }
    {
        if (entry as usize) < self.to.len() {
            self.to[entry as usize] = to;
        }
    }

    /// Whether a part of any entry is owed.
    pub fn any(&self) -> bool
        ensures { result ≡ owes.any_owed self.now }
    {
        self.to.iter().any(|to| to.is_some())
    }
}
