//! What the name lists make of a request: its scope, its resource, and whether it reserves a device.
ghost use Rattle.std.specs.Prelude.{◌≡◌, IfOk};
ghost use Rattle.scope_resolve.specs.Resolve.{unless_excluded, looked_up, reserve_looked_up, kind_of, res_in, resolved};

use super::listed::Listed;
use grs_base::{Lists, NoMemory, Qname, Res, Rname, Scope, SysId};
use std::alloc::Global;

/// What a line asks for, before it is resolved: names, a scope, and whether the name lists are looked at (`rnl`).
/// A RESERVE is for the whole complex, whatever the scope says.
#[derive(Clone, Copy)]
pub struct Unresolved<'a> {
    pub reserve: bool,
    pub q: &'a Qname,
    pub r: &'a Rname,
    pub scope: Scope,
    pub rnl: bool,
}

/// The resource that is meant, and whether the request reserves its device (`hardware`).
#[derive(Drop)]
pub struct Resolved {
    pub res: Res,
    pub hardware: bool,
}

/// The scope of a request for the whole complex that is looked up.
fn unless_excluded<L: Listed>(lists: &L, q: &Qname, r: &Rname) -> Scope
    ensures { result ≡ unless_excluded (L.lists lists.now) q.now r.now }
{
    if lists.is_excluded(q, r) {
        Scope::System
    } else {
        Scope::Systems
    }
}

/// The scope of a request that is looked up.
fn looked_up<L: Listed>(lists: &L, scope: Scope, q: &Qname, r: &Rname) -> Scope
    ensures { result ≡ looked_up (L.lists lists.now) scope q.now r.now }
{
    match scope {
        Scope::Step => Scope::Step,
        Scope::System if !lists.is_included(q, r) => Scope::System,
        Scope::System | Scope::Systems => unless_excluded(lists, q, r),
    }
}

/// The scope of a RESERVE that is looked up, and whether its device is reserved.
fn reserve_looked_up<L: Listed>(lists: &L, q: &Qname, r: &Rname) -> (Scope, bool)
    ensures { result ≡ reserve_looked_up (L.lists lists.now) q.now r.now }
{
    if lists.is_excluded(q, r) {
        (Scope::System, true)
    } else {
        (Scope::Systems, !lists.is_converted(q, r))
    }
}

/// The scope of what is asked for, and whether its device is reserved.
pub(crate) fn kind_in<L: Listed>(lists: &L, ask: &Unresolved<'_>) -> (Scope, bool)
    ensures { result ≡ kind_of (L.lists lists.now) ask.now.reserve ask.now.scope ask.now.rnl ask.now.q.now ask.now.r.now }
{
    match (ask.reserve, ask.rnl) {
        (true, true) => reserve_looked_up(lists, ask.q, ask.r),
        (true, false) => (Scope::Systems, true),
        (false, true) => (looked_up(lists, ask.scope, ask.q, ask.r), false),
        (false, false) => (ask.scope, false),
    }
}

/// The resource of these names and this scope, as a job of a system asks for it.
fn res_in(
    alloc: Global,
    scope: Scope,
    system: SysId,
    job: u16,
    q: &Qname,
    r: &Rname,
) -> Result<Res, NoMemory>
    ensures { IfOk result (λ res. res ≡ res_in scope system job q.now r.now) }
{
    let q = q.copy(alloc)?;
    let r = r.copy(alloc)?;
    match scope {
        Scope::Step => Ok(Res::Step { system, job, q, r }),
        Scope::System => Ok(Res::System { system, q, r }),
        Scope::Systems => Ok(Res::Systems { q, r }),
    }
}

/// The resource that a job of a system asks for, and whether its device is reserved.
pub(crate) fn resolved_in<L: Listed>(
    alloc: Global,
    lists: &L,
    ask: &Unresolved<'_>,
    system: SysId,
    job: u16,
) -> Result<Resolved, NoMemory>
    ensures { IfOk result (λ found. found ≡ resolved (L.lists lists.now) ask.now.reserve ask.now.scope ask.now.rnl system job ask.now.q.now ask.now.r.now) }
{
    let (scope, hardware) = kind_in(lists, ask);
    let res = res_in(alloc, scope, system, job, ask.q, ask.r)?;
    Ok(Resolved { res, hardware })
}

/// The scope of what is asked for, and whether its device is reserved.
///
/// A request of a system that the inclusion list names goes to the whole complex, and one for the whole
/// complex that the exclusion list names stays in its system. A RESERVE that the exclusion list names stays
/// in its system and reserves its device; one that the conversion list names is for the whole complex and
/// doesn't; any other does both. Requests of a step, and those with RNL=NO, aren't looked up.
pub fn resolve_kind(lists: &Lists, ask: &Unresolved<'_>) -> (Scope, bool)
    ensures { result ≡ kind_of lists.now ask.now.reserve ask.now.scope ask.now.rnl ask.now.q.now ask.now.r.now }
{
    kind_in(lists, ask)
}

/// The resource that a job of a system asks for, and whether the device is reserved, as `resolve_kind` says.
/// Memory is taken for the names alone.
pub fn resolve(
    alloc: Global,
    lists: &Lists,
    ask: &Unresolved<'_>,
    system: SysId,
    job: u16,
) -> Result<Resolved, NoMemory>
    ensures { IfOk result (λ found. found ≡ resolved lists.now ask.now.reserve ask.now.scope ask.now.rnl system job ask.now.q.now ask.now.r.now) }
{
    resolved_in(alloc, lists, ask, system, job)
}
