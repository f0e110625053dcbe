//! Circular lists of elements, each known by its first element and its length. Nothing here knows what queues and
//! tasks keep beside them.
ghost use Rattle.std.specs.Prelude.{◌≡◌, ◌≤◌, ◌<◌, ◌+◌, true, false, drop, IfOk};
ghost use Rattle.qel_store.specs.Items.{found, has_key, members, is_in, is_of, key_of, elems_of};
ghost use Rattle.qel_store.specs.Rings.{IsCircle, no_ring, ring_with, ring_without, first_key, IsLastLink, has_neighbours, tied};

use super::elements::{Elements, Link, Side};
use grs_base::{Elem, List, NoMemory, Steps, TaskId, is_same_task};
use std::alloc::Global;
use std::sync::ledger::Ledger;

/// A circular list: its first element, where it has any, and how many it has.
#[derive(Clone, Copy)]
pub(crate) struct Ring {
    pub first: u32,
    pub len: u32,
}

impl Ring {
    /// No elements.
    pub(crate) fn empty() -> Ring
        ensures { result ≡ no_ring }
    {
        Ring { first: 0, len: 0 }
    }

    /// With an element more, put last.
    pub(crate) fn with(self, key: u32) -> Ring
        requires { self.len < 0xffff_ffff }
        ensures { result ≡ ring_with self key }
    {
        Ring {
            first: if self.len == 0 { key } else { self.first },
            len: self.len + 1,
        }
    }

    /// Without an element, which led to this next one.
    pub(crate) fn without(self, key: u32, next: u32) -> Ring
        ensures { result ≡ ring_without self key next }
    {
        if self.len <= 1 {
            return Ring::empty();
        }
        Ring {
            first: if self.first == key { next } else { self.first },
            len: self.len - 1,
        }
    }
}

/// Where an element leads that goes last: alone, to itself.
pub(crate) fn last_link<L: Ledger>(
    elements: &Elements,
    side: Side,
    ring: Ring,
    key: u32,
    steps: &mut Steps<L>,
) -> Link
    requires { 0 < ring.len → has_key elements.now.items ring.first ≡ true }
    ensures { IsLastLink side elements.now.items ring key result }
{
    if ring.len == 0 {
        return Link {
            next: key,
            prev: key,
        };
    }
    Link {
        next: ring.first,
        prev: elements.get(ring.first, steps).link(side).prev,
    }
}

/// The neighbours of an element that isn't there lead elsewhere, if it has any.
pub(crate) fn tie<L: Ledger>(
    elements: &mut Elements,
    side: Side,
    key: u32,
    at: Link,
    to: Link,
    steps: &mut Steps<L>,
)
    requires absent { has_key elements.old.items key ≡ false }
    requires neighbours { has_neighbours elements.old.items key at ≡ true }
    ensures items { elements.new.items ≡ tied side at to elements.old.items }
    ensures room { elements.new.room ≡ elements.old.room }
    ensures next_key { elements.new.next_key ≡ elements.old.next_key }
    ensures steps { steps.new ≤ steps.old + 2 }
{
    if at.next != key {
        elements.set_next(side, at.prev, to.next, steps);
        elements.set_prev(side, at.next, to.prev, steps);
    }
}

/// The element of a task among those of a queue. `_queue` is there for the contract.
pub(crate) fn seek_task<L: Ledger>(
    elements: &Elements,
    _queue: u32,
    ring: Ring,
    task: TaskId,
    steps: &mut Steps<L>,
) -> Option<u32>
    requires { IsCircle Side.Queue (is_in _queue) elements.now.items ring }
    ensures { result ≡ key_of (is_of task) (members (is_in _queue) elements.now.items) }
{
    let mut key = ring.first;
    for i in 0..ring.len {
        let element = elements.get(key, steps);
        if is_same_task(task, element.elem.task) {
            return Some(key);
        }
        key = element.in_queue.next;
    }
    None
}

/// The element in a queue among those of a task. `_task` is there for the contract.
pub(crate) fn seek_queue<L: Ledger>(
    elements: &Elements,
    _task: TaskId,
    ring: Ring,
    queue: u32,
    steps: &mut Steps<L>,
) -> Option<u32>
    requires { IsCircle Side.Task (is_of _task) elements.now.items ring }
    ensures { result ≡ key_of (is_in queue) (members (is_of _task) elements.now.items) }
{
    let mut key = ring.first;
    for i in 0..ring.len {
        let element = elements.get(key, steps);
        if element.queue == queue {
            return Some(key);
        }
        key = element.of_task.next;
    }
    None
}

/// The key at a place of a queue, counted from its front.
fn ahead<L: Ledger>(
    elements: &Elements,
    _queue: u32,
    ring: Ring,
    place: u32,
    steps: &mut Steps<L>,
) -> u32
    requires circle { IsCircle Side.Queue (is_in _queue) elements.now.items ring }
    requires place { place ≤ ring.len }
    ensures { result ≡ first_key (drop place (members (is_in _queue) elements.now.items)) ring.first }
{
    let mut key = ring.first;
    for i in 0..place {
        key = elements.get(key, steps).in_queue.next;
    }
    key
}

/// The key at a place of a queue, counted from its end.
fn back<L: Ledger>(
    elements: &Elements,
    _queue: u32,
    ring: Ring,
    place: u32,
    steps: &mut Steps<L>,
) -> u32
    requires circle { IsCircle Side.Queue (is_in _queue) elements.now.items ring }
    requires place { place ≤ ring.len }
    ensures { result ≡ first_key (drop place (members (is_in _queue) elements.now.items)) ring.first }
{
    let mut key = ring.first;
    for i in 0..ring.len - place {
        key = elements.get(key, steps).in_queue.prev;
    }
    key
}

/// The key at a place of a queue, counted from the nearer end.
pub(crate) fn key_at<L: Ledger>(
    elements: &Elements,
    _queue: u32,
    ring: Ring,
    place: u32,
    steps: &mut Steps<L>,
) -> u32
    requires circle { IsCircle Side.Queue (is_in _queue) elements.now.items ring }
    requires place { place ≤ ring.len }
    ensures { result ≡ first_key (drop place (members (is_in _queue) elements.now.items)) ring.first }
{
    if place <= ring.len / 2 {
        ahead(elements, _queue, ring, place, steps)
    } else {
        back(elements, _queue, ring, place, steps)
    }
}

/// The elements of a queue, in order.
pub(crate) fn elems_in<L: Ledger>(
    alloc: Global,
    elements: &Elements,
    _queue: u32,
    ring: Ring,
    steps: &mut Steps<L>,
) -> Result<List<Elem>, NoMemory>
    requires { IsCircle Side.Queue (is_in _queue) elements.now.items ring }
    ensures { IfOk result (λ elems. elems ≡ elems_of (members (is_in _queue) elements.now.items)) }
{
    let mut elems = List::with_room(alloc, ring.len as usize)?;
    let mut key = ring.first;
    for i in 0..ring.len {
        let element = elements.get(key, steps);
        elems.push(element.elem)?;
        key = element.in_queue.next;
    }
    Ok(elems)
}
