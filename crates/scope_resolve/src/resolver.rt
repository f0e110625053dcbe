//! The name lists of a deck with an index over each, made once for all requests.
ghost use Rattle.std.specs.Prelude.{◌≡◌, IfOk};
ghost use Rattle.scope_resolve.specs.Resolve.{kind_of, resolved};

use super::decide::{Resolved, Unresolved, kind_in, resolved_in};
use grs_base::{Lists, NoMemory, Scope, SysId};
use rnl_match::RnlIndex;
use std::alloc::Global;
use std::marker::Model;

/// Three name lists with their indices, seen as the lists.
#[derive(Drop)]
pub struct Resolver<'l> {
    pub(crate) incl: RnlIndex<'l>,
    pub(crate) excl: RnlIndex<'l>,
    pub(crate) con: RnlIndex<'l>,
}

impl<'l> Model for Resolver<'l> {
    ghost use Rattle.grs_base.specs.declared.rnl.Lists.{Lists as ListsValue};

    ghost Value = { ListsValue };

    ghost view = { λ a. record { incl = a.incl; excl = a.excl; con = a.con } };
}

impl<'l> Resolver<'l> {
    /// An index over each of three lists.
    pub fn build(alloc: Global, lists: &'l Lists) -> Result<Resolver<'l>, NoMemory>
        ensures { IfOk result (λ resolver. resolver ≡ lists.now) }
    {
        let incl = RnlIndex::build(alloc, &lists.incl)?;
        let excl = RnlIndex::build(alloc, &lists.excl)?;
        let con = RnlIndex::build(alloc, &lists.con)?;
        Ok(Resolver { incl, excl, con })
    }

    /// What `resolve_kind` answers of the lists.
    pub fn resolve_kind(&self, ask: &Unresolved<'_>) -> (Scope, bool)
        ensures { result ≡ kind_of self.now ask.now.reserve ask.now.scope ask.now.rnl ask.now.q.now ask.now.r.now }
    {
        kind_in(self, ask)
    }

    /// What `resolve` answers of the lists. Memory is taken for the names alone.
    pub fn resolve(
        &self,
        alloc: Global,
        ask: &Unresolved<'_>,
        system: SysId,
        job: u16,
    ) -> Result<Resolved, NoMemory>
        ensures { IfOk result (λ found. found ≡ resolved self.now ask.now.reserve ask.now.scope ask.now.rnl system job ask.now.q.now ask.now.r.now) }
    {
        resolved_in(alloc, self, ask, system, job)
    }
}
