//! How a task stands in a queue, and who gets control behind it, by going over the elements in front where that must
//! be. Nothing here changes anything.
ghost use Rattle.std.specs.Prelude.{◌≡◌, ◌<◌, ◌+◌, ◌++◌, ◌==◌, [], true, false, cond, drop, nat_le, slice_get, Some, OnOk, IfOk};
ghost use Rattle.grs_base.specs.Behind.{shared_tasks, owner_tasks, tasks_behind};
ghost use Rattle.grs_base.specs.Lists.{place_of, shared_front, owners as owners_of, begins_shared, owns_shared as owns_among, standing_of};
ghost use Rattle.qel_store.specs.Items.{found, has_key, members, is_in, is_of, key_of, index_of, elems_of, count_exclusive, is_shared_at};
ghost use Rattle.qel_store.specs.Rings.{IsCircle, first_key};
ghost use Rattle.qel_store.specs.Linked.{AllLinked};

use super::elements::{Element, Elements, Side};
use super::heads::Head;
use super::rings::{Ring, seek_queue, seek_task};
use super::tasks::{Tasks, task_ring};
use grs_base::{Ctl, Elem, List, NoMemory, Standing, Steps, TaskId, is_same_task};
use std::alloc::Global;
use std::sync::ledger::Ledger;

/// So many elements of a queue are looked through sooner than a task is looked up.
const FEW: u32 = 2;

/// The element of a task in a queue. An owner often stands first; else it is looked for where there are fewer elements: in
/// the queue, or among those of the task.
pub(crate) fn find<L: Ledger>(
    elements: &Elements,
    tasks: &Tasks,
    queue: u32,
    ring: Ring,
    task: TaskId,
    steps: &mut Steps<L>,
) -> Option<u32>
    requires queue { IsCircle Side.Queue (is_in queue) elements.now.items ring }
    requires tasks { AllLinked elements.now.items tasks.now.circles.entries }
    ensures { result ≡ key_of (is_of task) (members (is_in queue) elements.now.items) }
{
    if ring.len <= FEW {
        return seek_task(elements, queue, ring, task, steps);
    }
    let first = elements.get(ring.first, steps);
    if is_same_task(task, first.elem.task) {
        return Some(ring.first);
    }
    let held = task_ring(tasks, task);
    if held.len < ring.len {
        seek_queue(elements, task, held, queue, steps)
    } else {
        seek_task(elements, queue, ring, task, steps)
    }
}

/// How many elements of a queue are shared in front, and the key behind them.
#[derive(Clone, Copy)]
pub(crate) struct Shared {
    pub len: u32,
    pub behind: u32,
}

/// The shared elements in front of a queue.
pub(crate) fn shared_of<L: Ledger>(
    elements: &Elements,
    _queue: u32,
    ring: Ring,
    steps: &mut Steps<L>,
) -> Shared
    requires { IsCircle Side.Queue (is_in _queue) elements.now.items ring }
    ensures len { result.len ≡ shared_front (elems_of (members (is_in _queue) elements.now.items)) }
    ensures behind { result.behind ≡ first_key (drop result.len (members (is_in _queue) elements.now.items)) ring.first }
{
    let mut key = ring.first;
    for len in 0..ring.len {
        let element = elements.get(key, steps);
        match element.elem.ctl {
            Ctl::E => return Shared { len, behind: key },
            Ctl::S => {}
        }
        key = element.in_queue.next;
    }
    Shared {
        len: ring.len,
        behind: key,
    }
}

/// Whether a shared element is among those in front of its queue. `_task` is its task, for the contract.
fn owns_shared<L: Ledger>(
    elements: &Elements,
    _queue: u32,
    ring: Ring,
    key: u32,
    _task: TaskId,
    steps: &mut Steps<L>,
) -> bool
    requires circle { IsCircle Side.Queue (is_in _queue) elements.now.items ring }
    requires key { key_of (is_of _task) (members (is_in _queue) elements.now.items) ≡ Some key }
    requires shared { is_shared_at elements.now.items key ≡ true }
    ensures { result ≡ owns_among (elems_of (members (is_in _queue) elements.now.items)) _task }
{
    let mut at = ring.first;
    for i in 0..ring.len {
        if at == key {
            return true;
        }
        let element = elements.get(at, steps);
        match element.elem.ctl {
            Ctl::E => return false,
            Ctl::S => {}
        }
        at = element.in_queue.next;
    }
    false
}

/// Whether the first element, a shared one, owns alone: no shared one stands behind it.
fn is_alone<L: Ledger>(elements: &Elements, _queue: u32, ring: Ring, steps: &mut Steps<L>) -> bool
    requires circle { IsCircle Side.Queue (is_in _queue) elements.now.items ring }
    requires shared { begins_shared (elems_of (members (is_in _queue) elements.now.items)) ≡ true }
    ensures { result ≡ (owners_of (elems_of (members (is_in _queue) elements.now.items)) == 1) }
{
    if ring.len == 1 {
        return true;
    }
    let second = elements.get(ring.first, steps).in_queue.next;
    match elements.get(second, steps).elem.ctl {
        Ctl::E => true,
        Ctl::S => false,
    }
}

/// How a task stands that owns as one of so many.
fn owner_among(owners: u32) -> Standing
    ensures { result ≡ cond (owners == 1) Standing.OnlyShared Standing.AmongShared }
{
    if owners == 1 {
        Standing::OnlyShared
    } else {
        Standing::AmongShared
    }
}

/// How the task stands whose element in a queue has this key.
pub(crate) fn stands<L: Ledger>(
    elements: &Elements,
    _queue: u32,
    head: Head,
    key: u32,
    _task: TaskId,
    steps: &mut Steps<L>,
) -> Standing
    requires circle { IsCircle Side.Queue (is_in _queue) elements.now.items head.ring }
    requires exclusives { head.exclusives ≡ count_exclusive (members (is_in _queue) elements.now.items) }
    requires key { key_of (is_of _task) (members (is_in _queue) elements.now.items) ≡ Some key }
    ensures { result ≡ standing_of (elems_of (members (is_in _queue) elements.now.items)) _task }
{
    if head.exclusives == 0 {
        return owner_among(head.ring.len);
    }
    match elements.get(key, steps).elem.ctl {
        Ctl::E => {
            if key == head.ring.first {
                Standing::Exclusive
            } else {
                Standing::Waits
            }
        }
        Ctl::S => stands_shared(elements, _queue, head.ring, key, _task, steps),
    }
}

/// The same of a shared element.
fn stands_shared<L: Ledger>(
    elements: &Elements,
    _queue: u32,
    ring: Ring,
    key: u32,
    _task: TaskId,
    steps: &mut Steps<L>,
) -> Standing
    requires circle { IsCircle Side.Queue (is_in _queue) elements.now.items ring }
    requires key { key_of (is_of _task) (members (is_in _queue) elements.now.items) ≡ Some key }
    requires shared { is_shared_at elements.now.items key ≡ true }
    ensures { result ≡ standing_of (elems_of (members (is_in _queue) elements.now.items)) _task }
{
    if !owns_shared(elements, _queue, ring, key, _task, steps) {
        return Standing::Waits;
    }
    if key != ring.first {
        return Standing::AmongShared;
    }
    if is_alone(elements, _queue, ring, steps) {
        Standing::OnlyShared
    } else {
        Standing::AmongShared
    }
}

/// Puts the tasks of the shared elements from a place on behind others, up to the first exclusive one.
fn add_shared<L: Ledger>(
    elements: &Elements,
    _queue: u32,
    ring: Ring,
    from: u32,
    first: u32,
    tasks: &mut List<TaskId>,
    steps: &mut Steps<L>,
) -> Result<(), NoMemory>
    requires circle { IsCircle Side.Queue (is_in _queue) elements.now.items ring }
    requires key { first ≡ first_key (drop from (members (is_in _queue) elements.now.items)) ring.first }
    ensures { OnOk result (tasks.new ≡ tasks.old ++ shared_tasks (elems_of (drop from (members (is_in _queue) elements.now.items)))) }
{
    let mut key = first;
    for place in from..ring.len {
        let element = elements.get(key, steps);
        match element.elem.ctl {
            Ctl::E => return Ok(()),
            Ctl::S => tasks.push(element.elem.task)?,
        }
        key = element.in_queue.next;
    }
    Ok(())
}

/// Puts the tasks behind others that would own if a queue began at this place.
fn add_owners<L: Ledger>(
    elements: &Elements,
    _queue: u32,
    ring: Ring,
    from: u32,
    first: u32,
    tasks: &mut List<TaskId>,
    steps: &mut Steps<L>,
) -> Result<(), NoMemory>
    requires circle { IsCircle Side.Queue (is_in _queue) elements.now.items ring }
    requires key { first ≡ first_key (drop from (members (is_in _queue) elements.now.items)) ring.first }
    ensures { OnOk result (tasks.new ≡ tasks.old ++ owner_tasks (elems_of (drop from (members (is_in _queue) elements.now.items)))) }
{
    if ring.len <= from {
        return Ok(());
    }
    let element = elements.get(first, steps);
    tasks.push(element.elem.task)?;
    let behind = from + 1;
    let next = element.in_queue.next;
    match element.elem.ctl {
        Ctl::E => Ok(()),
        Ctl::S => add_shared(elements, _queue, ring, behind, next, tasks, steps),
    }
}

/// Whether the first element, which is given, owns alone.
fn owns_alone<L: Ledger>(
    elements: &Elements,
    _queue: u32,
    ring: Ring,
    first: Elem,
    steps: &mut Steps<L>,
) -> bool
    requires circle { IsCircle Side.Queue (is_in _queue) elements.now.items ring }
    requires first { slice_get (elems_of (members (is_in _queue) elements.now.items)) 0 ≡ Some first }
    ensures { result ≡ (owners_of (elems_of (members (is_in _queue) elements.now.items)) == 1) }
{
    match first.ctl {
        Ctl::E => true,
        Ctl::S => is_alone(elements, _queue, ring, steps),
    }
}

/// Puts the tasks behind others that get control when the first element leaves.
fn add_behind_first<L: Ledger>(
    elements: &Elements,
    _queue: u32,
    ring: Ring,
    element: Element,
    tasks: &mut List<TaskId>,
    steps: &mut Steps<L>,
) -> Result<(), NoMemory>
    requires circle { IsCircle Side.Queue (is_in _queue) elements.now.items ring }
    requires some { 0 < ring.len }
    requires element { found elements.now.items ring.first ≡ Some element }
    ensures { OnOk result (tasks.new ≡ tasks.old ++ cond (nat_le (shared_front (elems_of (members (is_in _queue) elements.now.items))) 1) (owner_tasks (elems_of (drop 1 (members (is_in _queue) elements.now.items)))) []) }
{
    if owns_alone(elements, _queue, ring, element.elem, steps) {
        let next = element.in_queue.next;
        add_owners(elements, _queue, ring, 1, next, tasks, steps)
    } else {
        Ok(())
    }
}

/// Puts the tasks behind others that get control when an exclusive element leaves behind which others may stand.
fn add_behind_other<L: Ledger>(
    elements: &Elements,
    _queue: u32,
    ring: Ring,
    key: u32,
    element: Element,
    tasks: &mut List<TaskId>,
    steps: &mut Steps<L>,
) -> Result<(), NoMemory>
    requires circle { IsCircle Side.Queue (is_in _queue) elements.now.items ring }
    requires there { has_key (members (is_in _queue) elements.now.items) key ≡ true }
    requires element { found elements.now.items key ≡ Some element }
    requires other { (key == ring.first) ≡ false }
    ensures { OnOk result (tasks.new ≡ tasks.old ++ cond (index_of (members (is_in _queue) elements.now.items) key == shared_front (elems_of (members (is_in _queue) elements.now.items))) (shared_tasks (elems_of (drop (index_of (members (is_in _queue) elements.now.items) key + 1) (members (is_in _queue) elements.now.items)))) []) }
{
    let shared = shared_of(elements, _queue, ring, steps);
    if shared.behind != key {
        return Ok(());
    }
    let from = shared.len + 1;
    let next = element.in_queue.next;
    add_shared(elements, _queue, ring, from, next, tasks, steps)
}

/// Puts the tasks behind others that get control when an element leaves its queue.
fn add_behind<L: Ledger>(
    elements: &Elements,
    _queue: u32,
    ring: Ring,
    key: u32,
    _task: TaskId,
    tasks: &mut List<TaskId>,
    steps: &mut Steps<L>,
) -> Result<(), NoMemory>
    requires circle { IsCircle Side.Queue (is_in _queue) elements.now.items ring }
    requires key { key_of (is_of _task) (members (is_in _queue) elements.now.items) ≡ Some key }
    ensures { OnOk result (tasks.new ≡ tasks.old ++ tasks_behind (elems_of (members (is_in _queue) elements.now.items)) (place_of (elems_of (members (is_in _queue) elements.now.items)) _task)) }
{
    let element = elements.get(key, steps);
    if key == ring.first {
        return add_behind_first(elements, _queue, ring, element, tasks, steps);
    }
    match element.elem.ctl {
        Ctl::E => add_behind_other(elements, _queue, ring, key, element, tasks, steps),
        Ctl::S => Ok(()),
    }
}

/// The tasks that get control when an element leaves its queue.
pub(crate) fn behind<L: Ledger>(
    alloc: Global,
    elements: &Elements,
    _queue: u32,
    head: Head,
    key: u32,
    _task: TaskId,
    steps: &mut Steps<L>,
) -> Result<List<TaskId>, NoMemory>
    requires circle { IsCircle Side.Queue (is_in _queue) elements.now.items head.ring }
    requires exclusives { head.exclusives ≡ count_exclusive (members (is_in _queue) elements.now.items) }
    requires key { key_of (is_of _task) (members (is_in _queue) elements.now.items) ≡ Some key }
    ensures { IfOk result (λ tasks. tasks ≡ tasks_behind (elems_of (members (is_in _queue) elements.now.items)) (place_of (elems_of (members (is_in _queue) elements.now.items)) _task)) }
{
    let mut tasks = List::new(alloc);
    if head.exclusives == 0 {
        return Ok(tasks);
    }
    add_behind(elements, _queue, head.ring, key, _task, &mut tasks, steps)?;
    Ok(tasks)
}
