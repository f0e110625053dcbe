//! Linked queues: their elements, the heads of the queues and the tasks, kept in step.
ghost use Rattle.std.specs.Prelude.{◌≡◌, ◌≤◌, ◌<◌, ◌+◌, ◌*◌, ◌++◌, ◌∷◌, [], ℕ, true, false, cond, length, min, nat_eq, slice_get, Some, IfOk, IfSome, OnOk, OnErr};
ghost use Rattle.grs_base.specs.Behind.{tasks_behind};
ghost use Rattle.grs_base.specs.Lists.{has_task, place_of, standing_of};
ghost use Rattle.grs_base.specs.Same.{same_task};
ghost use Rattle.indexmap.specs.IndexMap.{spare};
ghost use Rattle.grs_base.specs.State.{queued_by, without, with_exclusive as with_exclusive_at};
ghost use Rattle.qel_store.specs.declared.elements.Element.{Element as ElementValue};
ghost use Rattle.qel_store.specs.Items.{found, has_key, keys_apart, changed, members, is_in, is_of, elems_of, held_of, made_exclusive, is_shared_at, without_task};
ghost use Rattle.qel_store.specs.Rings.{IsCircle};
ghost use Rattle.qel_store.specs.Heads.{head_at, is_free_at};
ghost use Rattle.qel_store.specs.Tasks.{TaskRings};
ghost use Rattle.qel_store.specs.Linked.{QueuesLinked, TasksLinked, AllLinked, unqueued};

use super::elements::{Element, Elements, Link, Side};
use super::finding::{behind, find, stands};
use super::heads::{Head, head_of, reserve_head, set_head};
use super::rings::{Ring, elems_in, key_at, last_link, tie};
use super::tasks::{Tasks, add_to_task, change_task_ring, reserve_task, take_from_task, task_ring};
use grs_base::{Ctl, Elem, List, NoMemory, Queues, Standing, Steps, TaskId};
use std::alloc::Global;
use std::marker::Brand;
use std::sync::ledger::{Blank, Ledger};

/// Queues whose elements are linked. `free` is the queue to be used next, where it isn't in use.
#[derive(Drop)]
pub struct LinkedQueues {
    elements: Elements,
    heads: Vec<Head>,
    free: u32,
    tasks: Tasks,
    ghost few: { length heads.items ≤ 0xffff_ffff },
    ghost queues: { QueuesLinked elements.items heads.items },
    ghost linked: { AllLinked elements.items tasks.circles.entries },
}

/// Puts an element last in a queue and among those of its task.
fn push_in<L: Ledger>(
    elements: &mut Elements,
    heads: &mut Vec<Head>,
    tasks: &mut Tasks,
    queue: u32,
    elem: Elem,
    blank: Blank,
)
    requires name { blank.name ≡ L.name }
    requires parts { blank.parts ≡ L.parts }
    requires some { 0 < blank.parts }
    requires queues { QueuesLinked elements.old.items heads.old.items }
    requires tasks { AllLinked elements.old.items tasks.old.circles.entries }
    requires live { (head_at heads.old.items queue).live ≡ true }
    requires elem_room { 1 ≤ elements.old.room }
    requires task_room { 1 ≤ spare tasks.old.circles }
    requires absent { has_task (elems_of (members (is_in queue) elements.old.items)) elem.task ≡ false }
    ensures queues { QueuesLinked elements.new.items heads.new.items }
    ensures tasks { AllLinked elements.new.items tasks.new.circles.entries }
    ensures len { length heads.new.items ≡ length heads.old.items }
    ensures live { (q : ℕ) → (head_at heads.new.items q).live ≡ (head_at heads.old.items q).live }
    ensures held { held_of elements.new.items ≡ held_of elements.old.items ++ (queue, elem) ∷ [] }
{
    let mut steps = Steps::<L>::begin(blank);
    let key = elements.next_key();
    let head = head_of(heads, queue);
    let in_queue = last_link(elements, Side::Queue, head.ring, key, &mut steps);
    let ring = add_to_task(tasks, elem.task, key);
    let of_task = last_link(elements, Side::Task, ring, key, &mut steps);
    let more = head.with(key, elem.ctl);
    set_head(heads, queue, more);
    let here = Link {
        next: key,
        prev: key,
    };
    tie(elements, Side::Queue, key, in_queue, here, &mut steps);
    tie(elements, Side::Task, key, of_task, here, &mut steps);
    elements.insert(
        Element {
            elem,
            queue,
            in_queue,
            of_task,
        },
        &mut steps,
    );
}

/// Takes the element under a key out of its queue, and out of the queue's head.
fn unqueue<L: Ledger>(
    elements: &mut Elements,
    heads: &mut Vec<Head>,
    key: u32,
    steps: &mut Steps<L>,
) -> Element
    requires queues { QueuesLinked elements.old.items heads.old.items }
    requires there { has_key elements.old.items key ≡ true }
    ensures element { found elements.old.items key ≡ Some result }
    ensures items { elements.new.items ≡ unqueued key result elements.old.items }
    ensures queues { QueuesLinked elements.new.items heads.new.items }
    ensures len { length heads.new.items ≡ length heads.old.items }
    ensures live { (q : ℕ) → (head_at heads.new.items q).live ≡ (head_at heads.old.items q).live }
    ensures steps { steps.new ≤ steps.old + 3 }
{
    let element = elements.remove(key, steps);
    let led = element.in_queue;
    tie(elements, Side::Queue, key, led, led, steps);
    let head = head_of(heads, element.queue);
    let less = head.without(key, led.next, element.elem.ctl);
    set_head(heads, element.queue, less);
    element
}

/// Takes the element under a key out of its queue and from its task.
fn take_key<L: Ledger>(
    elements: &mut Elements,
    heads: &mut Vec<Head>,
    tasks: &mut Tasks,
    key: u32,
    steps: &mut Steps<L>,
) -> Elem
    requires queues { QueuesLinked elements.old.items heads.old.items }
    requires tasks { AllLinked elements.old.items tasks.old.circles.entries }
    requires there { has_key elements.old.items key ≡ true }
    ensures elem { (e : ElementValue) → found elements.old.items key ≡ Some e → result ≡ e.elem }
    ensures held { (e : ElementValue) → found elements.old.items key ≡ Some e → held_of elements.new.items ≡ without nat_eq (held_of elements.old.items) e.queue e.elem.task }
    ensures queues { QueuesLinked elements.new.items heads.new.items }
    ensures tasks { AllLinked elements.new.items tasks.new.circles.entries }
    ensures len { length heads.new.items ≡ length heads.old.items }
    ensures live { (q : ℕ) → (head_at heads.new.items q).live ≡ (head_at heads.old.items q).live }
{
    let element = unqueue(elements, heads, key, steps);
    let led = element.of_task;
    tie(elements, Side::Task, key, led, led, steps);
    take_from_task(tasks, element.elem.task, key, led.next);
    element.elem
}

/// How a task stands in a queue.
fn standing_in<L: Ledger>(
    elements: &Elements,
    heads: &Vec<Head>,
    tasks: &Tasks,
    queue: u32,
    task: TaskId,
    blank: Blank,
) -> Standing
    requires name { blank.name ≡ L.name }
    requires parts { blank.parts ≡ L.parts }
    requires some { 0 < blank.parts }
    requires queues { QueuesLinked elements.now.items heads.now.items }
    requires tasks { AllLinked elements.now.items tasks.now.circles.entries }
    requires live { (head_at heads.now.items queue).live ≡ true }
    ensures { result ≡ standing_of (elems_of (members (is_in queue) elements.now.items)) task }
{
    let mut steps = Steps::<L>::begin(blank);
    let head = head_of(heads, queue);
    match find(elements, tasks, queue, head.ring, task, &mut steps) {
        Some(key) => stands(elements, queue, head, key, task, &mut steps),
        None => Standing::Absent,
    }
}

/// Takes a task's element out of a queue, and tells whether there was one.
fn take_of_in<L: Ledger>(
    elements: &mut Elements,
    heads: &mut Vec<Head>,
    tasks: &mut Tasks,
    queue: u32,
    task: TaskId,
    blank: Blank,
) -> bool
    requires name { blank.name ≡ L.name }
    requires parts { blank.parts ≡ L.parts }
    requires some { 0 < blank.parts }
    requires queues { QueuesLinked elements.old.items heads.old.items }
    requires tasks { AllLinked elements.old.items tasks.old.circles.entries }
    requires live { (head_at heads.old.items queue).live ≡ true }
    ensures there { result ≡ has_task (elems_of (members (is_in queue) elements.old.items)) task }
    ensures held { held_of elements.new.items ≡ without nat_eq (held_of elements.old.items) queue task }
    ensures queues { QueuesLinked elements.new.items heads.new.items }
    ensures tasks { AllLinked elements.new.items tasks.new.circles.entries }
    ensures len { length heads.new.items ≡ length heads.old.items }
    ensures live { (q : ℕ) → (head_at heads.new.items q).live ≡ (head_at heads.old.items q).live }
{
    let mut steps = Steps::<L>::begin(blank);
    let ring = head_of(heads, queue).ring;
    match find(elements, tasks, queue, ring, task, &mut steps) {
        Some(key) => {
            let _ = take_key(elements, heads, tasks, key, &mut steps);
            true
        }
        None => false,
    }
}

/// The element at a place of a queue.
fn elem_in<L: Ledger>(
    elements: &Elements,
    heads: &Vec<Head>,
    queue: u32,
    place: usize,
    blank: Blank,
) -> Elem
    requires name { blank.name ≡ L.name }
    requires parts { blank.parts ≡ L.parts }
    requires some { 0 < blank.parts }
    requires queues { QueuesLinked elements.now.items heads.now.items }
    requires live { (head_at heads.now.items queue).live ≡ true }
    requires place { place < length (elems_of (members (is_in queue) elements.now.items)) }
    ensures { slice_get (elems_of (members (is_in queue) elements.now.items)) place ≡ Some result }
{
    let mut steps = Steps::<L>::begin(blank);
    let ring = head_of(heads, queue).ring;
    let at = place as u32;
    let key = key_at(elements, queue, ring, at, &mut steps);
    elements.get(key, &mut steps).elem
}

/// The elements of a queue.
fn all_in<L: Ledger>(
    alloc: Global,
    elements: &Elements,
    heads: &Vec<Head>,
    queue: u32,
    blank: Blank,
) -> Result<List<Elem>, NoMemory>
    requires name { blank.name ≡ L.name }
    requires parts { blank.parts ≡ L.parts }
    requires some { 0 < blank.parts }
    requires queues { QueuesLinked elements.now.items heads.now.items }
    requires live { (head_at heads.now.items queue).live ≡ true }
    ensures { IfOk result (λ elems. elems ≡ elems_of (members (is_in queue) elements.now.items)) }
{
    let mut steps = Steps::<L>::begin(blank);
    let ring = head_of(heads, queue).ring;
    elems_in(alloc, elements, queue, ring, &mut steps)
}

/// Takes a task's element out of a queue, if it has one there, and names the tasks that get control by it.
fn take_told_in<L: Ledger>(
    alloc: Global,
    elements: &mut Elements,
    heads: &mut Vec<Head>,
    tasks: &mut Tasks,
    queue: u32,
    task: TaskId,
    blank: Blank,
) -> Result<List<TaskId>, NoMemory>
    requires name { blank.name ≡ L.name }
    requires parts { blank.parts ≡ L.parts }
    requires some { 0 < blank.parts }
    requires queues { QueuesLinked elements.old.items heads.old.items }
    requires tasks { AllLinked elements.old.items tasks.old.circles.entries }
    requires live { (head_at heads.old.items queue).live ≡ true }
    ensures told { IfOk result (λ tasks. tasks ≡ tasks_behind (elems_of (members (is_in queue) elements.old.items)) (place_of (elems_of (members (is_in queue) elements.old.items)) task)) }
    ensures held { OnOk result (held_of elements.new.items ≡ without nat_eq (held_of elements.old.items) queue task) }
    ensures unchanged { OnErr result (held_of elements.new.items ≡ held_of elements.old.items) }
    ensures queues { QueuesLinked elements.new.items heads.new.items }
    ensures tasks { AllLinked elements.new.items tasks.new.circles.entries }
    ensures len { length heads.new.items ≡ length heads.old.items }
    ensures live { (q : ℕ) → (head_at heads.new.items q).live ≡ (head_at heads.old.items q).live }
{
    let mut steps = Steps::<L>::begin(blank);
    let head = head_of(heads, queue);
    match find(elements, tasks, queue, head.ring, task, &mut steps) {
        Some(key) => {
            let told = behind(alloc, elements, queue, head, key, task, &mut steps)?;
            let _ = take_key(elements, heads, tasks, key, &mut steps);
            Ok(told)
        }
        None => Ok(List::new(alloc)),
    }
}

/// Takes the element at a place of a queue out.
fn take_in<L: Ledger>(
    elements: &mut Elements,
    heads: &mut Vec<Head>,
    tasks: &mut Tasks,
    queue: u32,
    place: usize,
    blank: Blank,
) -> Elem
    requires name { blank.name ≡ L.name }
    requires parts { blank.parts ≡ L.parts }
    requires some { 0 < blank.parts }
    requires queues { QueuesLinked elements.old.items heads.old.items }
    requires tasks { AllLinked elements.old.items tasks.old.circles.entries }
    requires live { (head_at heads.old.items queue).live ≡ true }
    requires place { place < length (elems_of (members (is_in queue) elements.old.items)) }
    ensures elem { slice_get (elems_of (members (is_in queue) elements.old.items)) place ≡ Some result }
    ensures held { held_of elements.new.items ≡ without nat_eq (held_of elements.old.items) queue result.task }
    ensures queues { QueuesLinked elements.new.items heads.new.items }
    ensures tasks { AllLinked elements.new.items tasks.new.circles.entries }
    ensures len { length heads.new.items ≡ length heads.old.items }
    ensures live { (q : ℕ) → (head_at heads.new.items q).live ≡ (head_at heads.old.items q).live }
{
    let mut steps = Steps::<L>::begin(blank);
    let ring = head_of(heads, queue).ring;
    let at = place as u32;
    let key = key_at(elements, queue, ring, at, &mut steps);
    take_key(elements, heads, tasks, key, &mut steps)
}

/// Makes the shared element under a key exclusive.
fn exclude_shared<L: Ledger>(
    elements: &mut Elements,
    heads: &mut Vec<Head>,
    key: u32,
    queue: u32,
    steps: &mut Steps<L>,
)
    requires queues { QueuesLinked elements.old.items heads.old.items }
    requires there { has_key (members (is_in queue) elements.old.items) key ≡ true }
    requires shared { is_shared_at elements.old.items key ≡ true }
    ensures items { elements.new.items ≡ changed key made_exclusive elements.old.items }
    ensures queues { QueuesLinked elements.new.items heads.new.items }
    ensures len { length heads.new.items ≡ length heads.old.items }
    ensures live { (q : ℕ) → (head_at heads.new.items q).live ≡ (head_at heads.old.items q).live }
{
    elements.set_exclusive(key, steps);
    let head = head_of(heads, queue);
    let more = head.excluded();
    set_head(heads, queue, more);
}

/// Makes the element under a key exclusive.
fn exclude<L: Ledger>(
    elements: &mut Elements,
    heads: &mut Vec<Head>,
    key: u32,
    queue: u32,
    steps: &mut Steps<L>,
)
    requires queues { QueuesLinked elements.old.items heads.old.items }
    requires there { has_key (members (is_in queue) elements.old.items) key ≡ true }
    ensures items { elements.new.items ≡ changed key made_exclusive elements.old.items }
    ensures queues { QueuesLinked elements.new.items heads.new.items }
    ensures len { length heads.new.items ≡ length heads.old.items }
    ensures live { (q : ℕ) → (head_at heads.new.items q).live ≡ (head_at heads.old.items q).live }
{
    match elements.get(key, steps).elem.ctl {
        Ctl::E => {}
        Ctl::S => exclude_shared(elements, heads, key, queue, steps),
    }
}

/// Makes the element at a place of a queue exclusive.
fn exclude_in<L: Ledger>(
    elements: &mut Elements,
    heads: &mut Vec<Head>,
    queue: u32,
    place: usize,
    blank: Blank,
)
    requires name { blank.name ≡ L.name }
    requires parts { blank.parts ≡ L.parts }
    requires some { 0 < blank.parts }
    requires queues { QueuesLinked elements.old.items heads.old.items }
    requires live { (head_at heads.old.items queue).live ≡ true }
    requires place { place < length (elems_of (members (is_in queue) elements.old.items)) }
    ensures held { IfSome (slice_get (elems_of (members (is_in queue) elements.old.items)) place) (λ e. held_of elements.new.items ≡ with_exclusive_at nat_eq (held_of elements.old.items) queue e.task) }
    ensures queues { QueuesLinked elements.new.items heads.new.items }
    ensures tasks { (ts : TaskRings) → AllLinked elements.old.items ts → AllLinked elements.new.items ts }
    ensures len { length heads.new.items ≡ length heads.old.items }
    ensures live { (q : ℕ) → (head_at heads.new.items q).live ≡ (head_at heads.old.items q).live }
{
    let mut steps = Steps::<L>::begin(blank);
    let ring = head_of(heads, queue).ring;
    let at = place as u32;
    let key = key_at(elements, queue, ring, at, &mut steps);
    exclude(elements, heads, key, queue, &mut steps);
}

/// The queue of the first element of a task.
fn first_in<L: Ledger>(
    elements: &Elements,
    tasks: &Tasks,
    task: TaskId,
    steps: &mut Steps<L>,
) -> Option<u32>
    requires keys { keys_apart elements.now.items ≡ true }
    requires tasks { AllLinked elements.now.items tasks.now.circles.entries }
    ensures queue { result ≡ slice_get (queued_by (held_of elements.now.items) task) 0 }
    ensures steps { steps.new ≤ steps.old + 1 }
{
    let ring = task_ring(tasks, task);
    if ring.len == 0 {
        return None;
    }
    Some(elements.get(ring.first, steps).queue)
}

/// The same on a count of its own.
fn first_uncounted<L: Ledger>(
    elements: &Elements,
    tasks: &Tasks,
    task: TaskId,
    blank: Blank,
) -> Option<u32>
    requires name { blank.name ≡ L.name }
    requires parts { blank.parts ≡ L.parts }
    requires some { 0 < blank.parts }
    requires keys { keys_apart elements.now.items ≡ true }
    requires tasks { AllLinked elements.now.items tasks.now.circles.entries }
    ensures { result ≡ slice_get (queued_by (held_of elements.now.items) task) 0 }
{
    let mut steps = Steps::<L>::begin(blank);
    first_in(elements, tasks, task, &mut steps)
}

/// Takes out the elements of a task, one after the other round its circle. `_task` is there for the contract.
fn end_in<L: Ledger>(
    elements: &mut Elements,
    heads: &mut Vec<Head>,
    _task: TaskId,
    ring: Ring,
    steps: &mut Steps<L>,
)
    requires queues { QueuesLinked elements.old.items heads.old.items }
    requires circle { IsCircle Side.Task (is_of _task) elements.old.items ring }
    ensures queues { QueuesLinked elements.new.items heads.new.items }
    ensures none { members (is_of _task) elements.new.items ≡ [] }
    ensures others { (ts : TaskRings) → AllLinked elements.old.items ts → TasksLinked (same_task _task) elements.new.items ts }
    ensures held { held_of elements.new.items ≡ without_task (held_of elements.old.items) _task }
    ensures len { length heads.new.items ≡ length heads.old.items }
    ensures live { (q : ℕ) → (head_at heads.new.items q).live ≡ (head_at heads.old.items q).live }
    ensures steps { steps.new ≤ steps.old + 3 * ring.len }
{
    let mut key = ring.first;
    for i in 0..ring.len {
        let element = unqueue(elements, heads, key, steps);
        key = element.of_task.next;
    }
}

impl LinkedQueues {
    /// No queues.
    pub fn new(alloc: Global) -> Self
        ensures elements { ⟦<LinkedQueues as Queues>⟧.elements result ≡ [] }
        ensures live { (q : ℕ) → ⟦<LinkedQueues as Queues>⟧.is_live result q ≡ false }
    {
        LinkedQueues {
            elements: Elements::new(alloc),
            heads: Vec::new(alloc),
            free: 0,
            tasks: Tasks::new(alloc),
        }
    }

    /// The queue of the first element that a task pushed, of those that are there, in two steps at most.
    pub fn first_of_counted<L: Ledger>(&self, task: TaskId, steps: &mut Steps<L>) -> Option<u32>
        ensures queue { result ≡ slice_get (queued_by (⟦<LinkedQueues as Queues>⟧.elements self.now) task) 0 }
        ensures steps { steps.new ≤ steps.old + 2 }
    {
        first_in(&self.elements, &self.tasks, task, steps)
    }

    /// Takes out every element of a task, and tells how many there were. All others keep their order, a queue that gets
    /// empty stays in use, and a queue can be made without `reserve` exactly where one could before.
    pub fn end_task<L: Ledger>(&mut self, task: TaskId, steps: &mut Steps<L>) -> u32
        ensures count { result ≡ length (queued_by (⟦<LinkedQueues as Queues>⟧.elements self.old) task) }
        ensures elements { ⟦<LinkedQueues as Queues>⟧.elements self.new ≡ without_task (⟦<LinkedQueues as Queues>⟧.elements self.old) task }
        ensures live { (q : ℕ) → ⟦<LinkedQueues as Queues>⟧.is_live self.new q ≡ ⟦<LinkedQueues as Queues>⟧.is_live self.old q }
        ensures room { ⟦<LinkedQueues as Queues>⟧.queue_room self.new ≡ ⟦<LinkedQueues as Queues>⟧.queue_room self.old }
        ensures steps { steps.new ≤ steps.old + (8 * result + 2) }
    {
        let ring = task_ring(&self.tasks, task);
        if ring.len == 0 {
            return 0;
        }
        change_task_ring(&mut self.tasks, task, Ring::empty());
        end_in(&mut self.elements, &mut self.heads, task, ring, steps);
        ring.len
    }
}

impl Queues for LinkedQueues {
    ghost elements = { λ s. held_of s.elements.items };

    ghost is_live = { λ s q. (head_at s.heads.items q).live };

    ghost queue_room = { λ s. cond (is_free_at s.heads.items s.free) 1 0 };

    ghost elem_room = { λ s. min s.elements.room (spare s.tasks.circles) };

    fn reserve(&mut self) -> Result<(), NoMemory> {
        self.elements.reserve()?;
        reserve_task(&mut self.tasks)?;
        self.free = reserve_head(&mut self.heads, self.free)?;
        Ok(())
    }

    fn make(&mut self) -> u32 {
        let number = self.free;
        let head = head_of(&self.heads, number);
        let used = head.in_use(true, number);
        set_head(&mut self.heads, number, used);
        self.free = head.next_free;
        number
    }

    fn push(&mut self, queue: u32, elem: Elem) {
        push_in::<Brand>(
            &mut self.elements,
            &mut self.heads,
            &mut self.tasks,
            queue,
            elem,
            Blank::new(1),
        );
    }

    fn len(&self, queue: u32) -> usize {
        head_of(&self.heads, queue).ring.len as usize
    }

    fn elem(&self, queue: u32, place: usize) -> Elem {
        elem_in::<Brand>(&self.elements, &self.heads, queue, place, Blank::new(1))
    }

    fn elems(&self, alloc: Global, queue: u32) -> Result<List<Elem>, NoMemory> {
        all_in::<Brand>(alloc, &self.elements, &self.heads, queue, Blank::new(1))
    }

    fn standing(&self, queue: u32, task: TaskId) -> Standing {
        standing_in::<Brand>(
            &self.elements,
            &self.heads,
            &self.tasks,
            queue,
            task,
            Blank::new(1),
        )
    }

    fn all_shared(&self, queue: u32) -> bool {
        head_of(&self.heads, queue).exclusives == 0
    }

    fn take(&mut self, queue: u32, place: usize) -> Elem {
        take_in::<Brand>(
            &mut self.elements,
            &mut self.heads,
            &mut self.tasks,
            queue,
            place,
            Blank::new(1),
        )
    }

    fn take_of(&mut self, queue: u32, task: TaskId) -> bool {
        take_of_in::<Brand>(
            &mut self.elements,
            &mut self.heads,
            &mut self.tasks,
            queue,
            task,
            Blank::new(1),
        )
    }

    fn take_told(
        &mut self,
        alloc: Global,
        queue: u32,
        task: TaskId,
    ) -> Result<List<TaskId>, NoMemory> {
        take_told_in::<Brand>(
            alloc,
            &mut self.elements,
            &mut self.heads,
            &mut self.tasks,
            queue,
            task,
            Blank::new(1),
        )
    }

    fn to_exclusive(&mut self, queue: u32, place: usize) {
        exclude_in::<Brand>(
            &mut self.elements,
            &mut self.heads,
            queue,
            place,
            Blank::new(1),
        );
    }

    fn drop_empty(&mut self, queue: u32) {
        let head = head_of(&self.heads, queue);
        let gone = head.in_use(false, self.free);
        set_head(&mut self.heads, queue, gone);
        self.free = queue;
    }

    fn first_of(&self, task: TaskId) -> Option<u32> {
        first_uncounted::<Brand>(&self.elements, &self.tasks, task, Blank::new(1))
    }

    fn count(&self, task: TaskId) -> usize {
        task_ring(&self.tasks, task).len as usize
    }
}
