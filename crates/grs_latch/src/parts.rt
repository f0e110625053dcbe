//! The latches of a set as numbered queues: what calls do to one of them, or to all.
ghost use Rattle.std.specs.Prelude.{◌≡◌, ◌<◌, ◌≤◌, ◌+◌, ◌++◌, ◌∷◌, cond, drop, [], Bool, true, nat_eq, length, replicate, slice_get, Some, None, IfSome, IfOk, OnOk, OnErr};
ghost use Rattle.grs_base.specs.Lists.{can_have, has_task, standing_of};
ghost use Rattle.grs_base.specs.State.{list_at, queued_by};
ghost use Rattle.grs_latch.specs.Latches.{obtain_code, obtained, release_code, released, code_at, changed_at, release_grants, requests_of, purged, purge_grants, grants_at, owners_without};
ghost use Rattle.grs_latch.specs.Numbered.{lists_at, IsNumbered};

use super::codes::{GRANTED, NO_LATCH, NO_REQUEST};
use super::queue::{add_granted, begin, obtain_in, release_in, take_out};
use super::reply::Grant;
use grs_base::{Elem, List, NoMemory, Queues, Standing, TaskId};
use std::alloc::Global;

/// So many latches, none of which has a queue.
pub(crate) fn no_queues(alloc: Global, count: u32) -> Result<Vec<Option<u32>>, NoMemory>
    ensures { IfOk result (λ numbers. numbers.items ≡ replicate count None) }
{
    match Vec::from_elem(alloc, None, count as usize) {
        Ok(numbers) => Ok(numbers),
        Err(_) => Err(NoMemory),
    }
}

/// The queue of the latch of this number, where there is such a latch, if it has one.
fn queue_of(numbers: &[Option<u32>], latch: u32) -> Option<Option<u32>>
    ensures { result ≡ slice_get numbers.now latch }
{
    numbers.get(latch as usize).copied()
}

/// The queue of the latch of this number, if it has one, where there is such a latch.
pub(crate) fn queue_at(numbers: &[Option<u32>], latch: usize) -> Option<u32>
    requires { latch < length numbers.now }
    ensures { slice_get numbers.now latch ≡ Some result }
{
    numbers[latch]
}

/// Gives a latch a queue, with its first request. `latches` gets the latch behind those that have queues. Without memory no
/// queue changes.
fn obtain_first<Q: Queues>(
    numbers: &mut [Option<u32>],
    latches: &mut List<u32>,
    queues: &mut Q,
    latch: u32,
    elem: Elem,
) -> Result<(), NoMemory>
    requires none { slice_get numbers.old latch ≡ Some None }
    requires numbered { IsNumbered numbers.old (Q.is_live queues.old) }
    ensures lists { (may_wait : Bool) → OnOk result (lists_at numbers.new (Q.elements queues.new) ≡ changed_at (λ es. obtained es elem.task elem.ctl may_wait) latch (lists_at numbers.old (Q.elements queues.old))) }
    ensures unchanged { OnErr result (lists_at numbers.new (Q.elements queues.new) ≡ lists_at numbers.old (Q.elements queues.old)) }
    ensures numbered { IsNumbered numbers.new (Q.is_live queues.new) }
    ensures len { length numbers.new ≡ length numbers.old }
{
    let queue = begin(latches, queues, latch, elem)?;
    numbers[latch as usize] = Some(queue);
    Ok(())
}

/// Carries out an obtain, and gives its code. Without memory nothing changes.
pub(crate) fn obtain_at<Q: Queues>(
    numbers: &mut [Option<u32>],
    latches: &mut List<u32>,
    queues: &mut Q,
    latch: u32,
    elem: Elem,
    may_wait: bool,
) -> Result<u8, NoMemory>
    requires numbered { IsNumbered numbers.old (Q.is_live queues.old) }
    ensures code { IfOk result (λ code. code ≡ code_at (λ es. obtain_code (standing_of es elem.task) (can_have es elem.ctl)) latch (lists_at numbers.old (Q.elements queues.old))) }
    ensures lists { OnOk result (lists_at numbers.new (Q.elements queues.new) ≡ changed_at (λ es. obtained es elem.task elem.ctl may_wait) latch (lists_at numbers.old (Q.elements queues.old))) }
    ensures unchanged { OnErr result (lists_at numbers.new (Q.elements queues.new) ≡ lists_at numbers.old (Q.elements queues.old)) }
    ensures numbered { IsNumbered numbers.new (Q.is_live queues.new) }
    ensures len { length numbers.new ≡ length numbers.old }
{
    match queue_of(numbers, latch) {
        Some(Some(queue)) => obtain_in(queues, queue, elem, may_wait),
        Some(None) => {
            obtain_first(numbers, latches, queues, latch, elem)?;
            Ok(GRANTED)
        }
        None => Ok(NO_LATCH),
    }
}

/// Carries out a release in a set, by its place: the code, and who gets the latch by it. Without memory nothing
/// changes.
pub(crate) fn release_at<Q: Queues>(
    alloc: Global,
    set: u32,
    numbers: &[Option<u32>],
    queues: &mut Q,
    latch: u32,
    task: TaskId,
) -> Result<(u8, List<Grant>), NoMemory>
    requires numbered { IsNumbered numbers.now (Q.is_live queues.old) }
    ensures code { IfOk result (λ told. told.0 ≡ code_at (λ es. release_code (standing_of es task)) latch (lists_at numbers.now (Q.elements queues.old))) }
    ensures grants { IfOk result (λ told. told.1 ≡ release_grants set latch latch (lists_at numbers.now (Q.elements queues.old)) task) }
    ensures lists { OnOk result (lists_at numbers.now (Q.elements queues.new) ≡ changed_at (λ es. released es task) latch (lists_at numbers.now (Q.elements queues.old))) }
    ensures unchanged { OnErr result (Q.elements queues.new ≡ Q.elements queues.old) }
    ensures numbered { IsNumbered numbers.now (Q.is_live queues.new) }
{
    match queue_of(numbers, latch) {
        Some(Some(queue)) => release_in(alloc, set, latch, queues, queue, task),
        Some(None) => Ok((NO_REQUEST, List::new(alloc))),
        None => Ok((NO_LATCH, List::new(alloc))),
    }
}

/// What a purge comes to.
#[derive(Drop)]
pub struct Purged {
    /// How many requests its requestor has.
    pub taken: u32,
    /// Who gets a latch by it, by latch and then in order of arrival.
    pub grants: List<Grant>,
}

/// The latch at which a task has its only request, and the latch's queue. None where the task has more or none, or where the
/// queue isn't that of the latch under its number in `latches`, which are the latches in the order in which they got queues.
#[tactic(auto, using(crate::proofs::OneLemmas::only))]
pub(crate) fn only_latch<Q: Queues>(
    numbers: &[Option<u32>],
    latches: &[u32],
    queues: &Q,
    task: TaskId,
) -> Option<(u32, u32)>
    ensures latch { IfSome result (λ found. slice_get numbers.now found.0 ≡ Some (Some found.1)) }
    ensures only { IfSome result (λ found. queued_by (Q.elements queues.now) task ≡ found.1 ∷ []) }
{
    if queues.count(task) != 1 {
        return None;
    }
    let queue = queues.first_of(task)?;
    let latch = *latches.get(queue as usize)?;
    if queue_of(numbers, latch) == Some(Some(queue)) {
        Some((latch, queue))
    } else {
        None
    }
}

/// Purges a set, by its place, of a task that has one request, at the latch of this number. Without memory nothing changes.
pub(crate) fn purge_one<Q: Queues>(
    alloc: Global,
    set: u32,
    numbers: &[Option<u32>],
    queues: &mut Q,
    latch: u32,
    queue: u32,
    task: TaskId,
) -> Result<Purged, NoMemory>
    requires numbered { IsNumbered numbers.now (Q.is_live queues.old) }
    requires latch { slice_get numbers.now latch ≡ Some (Some queue) }
    requires only { queued_by (Q.elements queues.old) task ≡ queue ∷ [] }
    ensures taken { IfOk result (λ p. p.taken ≡ requests_of (lists_at numbers.now (Q.elements queues.old)) task) }
    ensures grants { IfOk result (λ p. p.grants ≡ purge_grants set 0 (lists_at numbers.now (Q.elements queues.old)) task) }
    ensures lists { OnOk result (lists_at numbers.now (Q.elements queues.new) ≡ purged (lists_at numbers.now (Q.elements queues.old)) task) }
    ensures unchanged { OnErr result (Q.elements queues.new ≡ Q.elements queues.old) }
    ensures numbered { IsNumbered numbers.now (Q.is_live queues.new) }
{
    let grants = take_out(alloc, set, latch, queues, queue, task)?;
    Ok(Purged { taken: 1, grants })
}

/// Counts a task's request at a latch, where it has one, and puts those behind others who get the latch when it is taken
/// out.
#[tactic(auto, using(crate::proofs::LatchLemmas::purges))]
fn add_purged<Q: Queues>(
    alloc: Global,
    set: u32,
    latch: u32,
    queues: &Q,
    queue: u32,
    task: TaskId,
    purged: &mut Purged,
) -> Result<(), NoMemory>
    requires live { Q.is_live queues.now queue ≡ true }
    requires room { purged.old.taken < 0xffff_ffff }
    ensures taken { OnOk result (purged.new.taken ≡ purged.old.taken + cond (has_task (list_at nat_eq (Q.elements queues.now) queue) task) 1 0) }
    ensures grants { OnOk result (purged.new.grants ≡ purged.old.grants ++ grants_at set latch (owners_without (list_at nat_eq (Q.elements queues.now) queue) task)) }
{
    if queues.len(queue) == 0 {
        return Ok(());
    }
    match queues.standing(queue, task) {
        Standing::Absent => Ok(()),
        _ => {
            add_granted(alloc, set, latch, queues, queue, task, &mut purged.grants)?;
            purged.taken += 1;
            Ok(())
        }
    }
}

/// The same of the latch of this number. What is left to be looked at is what stands behind it.
#[tactic(auto, using(crate::proofs::PurgeLemmas::purge))]
fn add_purged_at<Q: Queues>(
    alloc: Global,
    set: u32,
    numbers: &[Option<u32>],
    latch: usize,
    queues: &Q,
    task: TaskId,
    purged: &mut Purged,
) -> Result<(), NoMemory>
    requires numbered { IsNumbered numbers.now (Q.is_live queues.now) }
    requires few { length numbers.now ≤ 0xffff_ffff }
    requires within { latch < length numbers.now }
    requires room { purged.old.taken < 0xffff_ffff }
    ensures less { OnOk result (purged.new.taken ≤ purged.old.taken + 1) }
    ensures taken { OnOk result (purged.new.taken + requests_of (drop (latch + 1) (lists_at numbers.now (Q.elements queues.now))) task ≡ purged.old.taken + requests_of (drop latch (lists_at numbers.now (Q.elements queues.now))) task) }
    ensures grants { OnOk result (purged.new.grants ++ purge_grants set (latch + 1) (drop (latch + 1) (lists_at numbers.now (Q.elements queues.now))) task ≡ purged.old.grants ++ purge_grants set latch (drop latch (lists_at numbers.now (Q.elements queues.now))) task) }
{
    match queue_at(numbers, latch) {
        Some(queue) => add_purged(alloc, set, latch as u32, queues, queue, task, purged),
        None => Ok(()),
    }
}

/// What a purge of a set, by its place, comes to, of which the caller then takes the task's requests out. It ends with the
/// last latch that has one.
#[tactic(auto, using(crate::proofs::PurgeLemmas::whole))]
pub(crate) fn purged_in<Q: Queues>(
    alloc: Global,
    set: u32,
    numbers: &[Option<u32>],
    queues: &Q,
    task: TaskId,
) -> Result<Purged, NoMemory>
    requires numbered { IsNumbered numbers.now (Q.is_live queues.now) }
    requires few { length numbers.now ≤ 0xffff_ffff }
    ensures taken { IfOk result (λ p. p.taken ≡ requests_of (lists_at numbers.now (Q.elements queues.now)) task) }
    ensures grants { IfOk result (λ p. p.grants ≡ purge_grants set 0 (lists_at numbers.now (Q.elements queues.now)) task) }
{
    let count = queues.count(task);
    let mut purged = Purged {
        taken: 0,
        grants: List::new(alloc),
    };
    for latch in 0..numbers.len() {
        if purged.taken as usize == count {
            return Ok(purged);
        }
        add_purged_at(alloc, set, numbers, latch, queues, task, &mut purged)?;
    }
    Ok(purged)
}
