//! One latch: a queue, and what calls do to it.
ghost use Rattle.std.specs.Prelude.{◌≡◌, ◌≤◌, ◌+◌, ℕ, true, false, ◌||◌, nat_eq, length, IfOk, OnOk, OnErr, ◌++◌, ◌∷◌, [], vec_len, vec_capacity};
ghost use Rattle.grs_base.specs.Lists.{can_have as can, is_apart, list_without, place_of as place_in, shared_front, standing_of};
ghost use Rattle.grs_base.specs.State.{list_at, without};
ghost use Rattle.grs_base.specs.declared.decision.Standing.TheVariants.{Absent};
ghost use Rattle.grs_latch.specs.Latches.{obtain_code as code_of_obtain, obtained, release_code as code_of_release, released, owners_without, grants_at};
ghost use Rattle.grs_wire.specs.Wants.{became_owners};

use super::codes::{is_queued, obtain_code, release_code};
use super::reply::Grant;
use grs_base::{Ctl, Elem, List, NoMemory, Queues, TaskId, is_same_task};
use ret_codes::{can_have, deq_table};
use serial_queue::tasks_behind;
use std::alloc::Global;

/// Puts a request last. Without memory nothing changes.
fn append<Q: Queues>(queues: &mut Q, queue: u32, elem: Elem) -> Result<(), NoMemory>
    requires live { Q.is_live queues.old queue ≡ true }
    requires absent { standing_of (list_at nat_eq (Q.elements queues.old) queue) elem.task ≡ Absent }
    ensures list { OnOk result (list_at nat_eq (Q.elements queues.new) queue ≡ list_at nat_eq (Q.elements queues.old) queue ++ elem ∷ []) }
    ensures others { (q : ℕ) → nat_eq q queue ≡ false → list_at nat_eq (Q.elements queues.new) q ≡ list_at nat_eq (Q.elements queues.old) q }
    ensures unchanged { OnErr result (Q.elements queues.new ≡ Q.elements queues.old) }
    ensures live { (q : ℕ) → Q.is_live queues.new q ≡ Q.is_live queues.old q }
{
    queues.reserve()?;
    queues.push(queue, elem);
    Ok(())
}

/// Carries out an obtain, and gives its code. Without memory nothing changes.
#[tactic(auto, using(crate::proofs::LatchLemmas::latch))]
pub(crate) fn obtain_in<Q: Queues>(
    queues: &mut Q,
    queue: u32,
    elem: Elem,
    may_wait: bool,
) -> Result<u8, NoMemory>
    requires live { Q.is_live queues.old queue ≡ true }
    ensures code { IfOk result (λ code. code ≡ code_of_obtain (standing_of (list_at nat_eq (Q.elements queues.old) queue) elem.task) (can (list_at nat_eq (Q.elements queues.old) queue) elem.ctl)) }
    ensures list { OnOk result (list_at nat_eq (Q.elements queues.new) queue ≡ obtained (list_at nat_eq (Q.elements queues.old) queue) elem.task elem.ctl may_wait) }
    ensures others { (q : ℕ) → nat_eq q queue ≡ false → list_at nat_eq (Q.elements queues.new) q ≡ list_at nat_eq (Q.elements queues.old) q }
    ensures unchanged { OnErr result (Q.elements queues.new ≡ Q.elements queues.old) }
    ensures live { (q : ℕ) → Q.is_live queues.new q ≡ Q.is_live queues.old q }
{
    let standing = queues.standing(queue, elem.task);
    let can = can_have(queues, Some(queue), elem.ctl);
    if is_queued(standing, can, may_wait) {
        append(queues, queue, elem)?;
    }
    Ok(obtain_code(standing, can))
}

/// Makes a queue of one request, and gives its number. `latches` gets the latch whose queue it is. Without memory no queue
/// changes.
pub(crate) fn begin<Q: Queues>(
    latches: &mut List<u32>,
    queues: &mut Q,
    latch: u32,
    elem: Elem,
) -> Result<u32, NoMemory>
    ensures fresh { IfOk result (λ queue. Q.is_live queues.old queue ≡ false) }
    ensures list { IfOk result (λ queue. list_at nat_eq (Q.elements queues.new) queue ≡ elem ∷ []) }
    ensures others { IfOk result (λ queue. (q : ℕ) → nat_eq q queue ≡ false → list_at nat_eq (Q.elements queues.new) q ≡ list_at nat_eq (Q.elements queues.old) q) }
    ensures live { IfOk result (λ queue. (q : ℕ) → Q.is_live queues.new q ≡ (nat_eq q queue || Q.is_live queues.old q)) }
    ensures unchanged { OnErr result (Q.elements queues.new ≡ Q.elements queues.old) }
    ensures as_live { OnErr result ((q : ℕ) → Q.is_live queues.new q ≡ Q.is_live queues.old q) }
{
    queues.reserve()?;
    latches.push(latch)?;
    let queue = queues.make();
    queues.push(queue, elem);
    Ok(queue)
}

/// Puts those who got a latch behind others.
fn add_grants(
    set: u32,
    latch: u32,
    tasks: &[TaskId],
    grants: &mut List<Grant>,
) -> Result<(), NoMemory>
    ensures { OnOk result (grants.new ≡ grants.old ++ grants_at set latch tasks.now) }
{
    for task in tasks {
        grants.push(Grant {
            set,
            latch,
            requestor: task.task,
        })?;
    }
    Ok(())
}

/// Puts those behind others who get a latch when a task's request is taken out.
pub(crate) fn add_granted<Q: Queues>(
    alloc: Global,
    set: u32,
    latch: u32,
    queues: &Q,
    queue: u32,
    task: TaskId,
    grants: &mut List<Grant>,
) -> Result<(), NoMemory>
    requires live { Q.is_live queues.now queue ≡ true }
    ensures { OnOk result (grants.new ≡ grants.old ++ grants_at set latch (owners_without (list_at nat_eq (Q.elements queues.now) queue) task)) }
{
    let tasks = told_without(alloc, queues, queue, task)?;
    add_grants(set, latch, tasks.as_slice(), grants)
}

/// Room for as many grants as a latch has requests.
fn grants_room(alloc: Global, most: usize) -> Result<Vec<Grant>, NoMemory>
    ensures none { IfOk result (λ room. room.items ≡ []) }
    ensures room { IfOk result (λ room. vec_len room + most ≤ vec_capacity room) }
{
    match Vec::with_capacity(alloc, most) {
        Ok(room) => Ok(room),
        Err(_) => Err(NoMemory),
    }
}

/// Those who got a latch, put where there is room for as many, so that no memory is taken.
fn grants_within(room: Vec<Grant>, set: u32, latch: u32, tasks: &[TaskId]) -> List<Grant>
    requires none { room.items ≡ [] }
    requires room { vec_len room + length tasks.now ≤ vec_capacity room }
    ensures { result ≡ grants_at set latch tasks.now }
{
    let mut grants = room;
    for task in tasks {
        grants.push_reserved(Grant {
            set,
            latch,
            requestor: task.task,
        });
    }
    List::from_vec(grants)
}

/// Takes a task's request out, and tells who gets the latch by it. Without memory nothing changes.
#[tactic(auto, using(crate::proofs::LatchLemmas::leaves))]
pub(crate) fn take_out<Q: Queues>(
    alloc: Global,
    set: u32,
    latch: u32,
    queues: &mut Q,
    queue: u32,
    task: TaskId,
) -> Result<List<Grant>, NoMemory>
    requires live { Q.is_live queues.old queue ≡ true }
    ensures grants { IfOk result (λ grants. grants ≡ grants_at set latch (owners_without (list_at nat_eq (Q.elements queues.old) queue) task)) }
    ensures list { OnOk result (list_at nat_eq (Q.elements queues.new) queue ≡ list_without (list_at nat_eq (Q.elements queues.old) queue) task) }
    ensures others { (q : ℕ) → nat_eq q queue ≡ false → list_at nat_eq (Q.elements queues.new) q ≡ list_at nat_eq (Q.elements queues.old) q }
    ensures elements { OnOk result (Q.elements queues.new ≡ without nat_eq (Q.elements queues.old) queue task) }
    ensures unchanged { OnErr result (Q.elements queues.new ≡ Q.elements queues.old) }
    ensures live { (q : ℕ) → Q.is_live queues.new q ≡ Q.is_live queues.old q }
{
    let room = grants_room(alloc, queues.len(queue))?;
    let tasks = queues.take_told(alloc, queue, task)?;
    Ok(grants_within(room, set, latch, tasks.as_slice()))
}

/// Carries out a release of the latch of this number of a set, by its place: the code, and who gets the latch by it.
/// Without memory nothing changes.
#[tactic(auto, using(crate::proofs::LatchLemmas::latch))]
pub(crate) fn release_in<Q: Queues>(
    alloc: Global,
    set: u32,
    latch: u32,
    queues: &mut Q,
    queue: u32,
    task: TaskId,
) -> Result<(u8, List<Grant>), NoMemory>
    requires live { Q.is_live queues.old queue ≡ true }
    ensures code { IfOk result (λ told. told.0 ≡ code_of_release (standing_of (list_at nat_eq (Q.elements queues.old) queue) task)) }
    ensures grants { IfOk result (λ told. told.1 ≡ grants_at set latch (became_owners (list_at nat_eq (Q.elements queues.old) queue) (released (list_at nat_eq (Q.elements queues.old) queue) task) task)) }
    ensures list { OnOk result (list_at nat_eq (Q.elements queues.new) queue ≡ released (list_at nat_eq (Q.elements queues.old) queue) task) }
    ensures others { (q : ℕ) → nat_eq q queue ≡ false → list_at nat_eq (Q.elements queues.new) q ≡ list_at nat_eq (Q.elements queues.old) q }
    ensures unchanged { OnErr result (Q.elements queues.new ≡ Q.elements queues.old) }
    ensures live { (q : ℕ) → Q.is_live queues.new q ≡ Q.is_live queues.old q }
{
    let standing = queues.standing(queue, task);
    let code = release_code(standing);
    let (_, owns) = deq_table(standing, true);
    if owns {
        let grants = take_out(alloc, set, latch, queues, queue, task)?;
        Ok((code, grants))
    } else {
        Ok((code, List::new(alloc)))
    }
}

/// How many requests of a list are shared before the first exclusive one.
fn front_of(elems: &[Elem]) -> usize
    ensures { result ≡ shared_front elems.now }
{
    for (place, elem) in elems.iter().enumerate() {
        match elem.ctl {
            Ctl::E => return place,
            Ctl::S => {}
        }
    }
    elems.len()
}

/// The place of a task's request in a list, or the length.
fn place_of(elems: &[Elem], task: TaskId) -> usize
    ensures place { result ≡ place_in elems.now task }
    ensures within { result ≤ length elems.now }
{
    for (place, elem) in elems.iter().enumerate() {
        if is_same_task(task, elem.task) {
            return place;
        }
    }
    elems.len()
}

/// The tasks that would get a latch with these requests if a task's were taken out.
fn told_by(alloc: Global, elems: &[Elem], task: TaskId) -> Result<List<TaskId>, NoMemory>
    requires { is_apart elems.now ≡ true }
    ensures { IfOk result (λ tasks. tasks ≡ owners_without elems.now task) }
{
    let front = front_of(elems);
    let place = place_of(elems, task);
    tasks_behind(alloc, elems, front, place)
}

/// The same of the requests in a queue.
fn told_without<Q: Queues>(
    alloc: Global,
    queues: &Q,
    queue: u32,
    task: TaskId,
) -> Result<List<TaskId>, NoMemory>
    requires live { Q.is_live queues.now queue ≡ true }
    ensures { IfOk result (λ tasks. tasks ≡ owners_without (list_at nat_eq (Q.elements queues.now) queue) task) }
{
    let elems = queues.elems(alloc, queue)?;
    told_by(alloc, elems.as_slice(), task)
}
