//! The tasks, each with its circle of elements. Nothing here knows of elements.
ghost use Rattle.std.specs.Prelude.{◌≡◌, ◌≤◌, ◌<◌, [], cond, true, slice_get, Some, OnOk};
ghost use Rattle.indexmap.specs.IndexMap.{spare};
ghost use Rattle.grs_base.specs.Same.{same_task};
ghost use Rattle.grs_base.specs.declared.resource.TaskId.{TaskId as TaskValue};
ghost use Rattle.qel_store.specs.Rings.{ring_with, ring_without};
ghost use Rattle.qel_store.specs.Tasks.{is_known, ring_of};

use super::rings::Ring;
use grs_base::{NoMemory, TaskId, is_same_task};
use indexmap::IndexMap;
use std::alloc::Global;

/// The tasks with their circles. `guesses` says by a task's numbers where it may stand among them: that is tried before
/// the task is looked up by its hash, which takes several times as long.
#[derive(Drop)]
pub(crate) struct Tasks {
    pub circles: IndexMap<TaskId, Ring>,
    pub guesses: Vec<usize>,
}

impl Tasks {
    /// No tasks.
    pub(crate) fn new(alloc: Global) -> Self
        ensures { result.circles.entries ≡ [] }
    {
        Tasks {
            circles: IndexMap::new(alloc),
            guesses: Vec::new(alloc),
        }
    }
}

/// Which of so many guesses is a task's. Few tasks share one, as tasks and systems are numbered from 0.
fn spot(task: TaskId, guesses: usize) -> usize {
    (task.task as usize + 64 * task.system.0 as usize) & guesses.saturating_sub(1)
}

/// Where a task may stand.
fn guess(tasks: &Tasks, task: TaskId) -> usize {
    match tasks.guesses.get(spot(task, tasks.guesses.len())) {
        Some(place) => *place,
        None => 0,
    }
}

/// Notes where a task stands.
fn note(tasks: &mut Tasks, task: TaskId)
    ensures { tasks.new.circles ≡ tasks.old.circles }
{
    let place = tasks.circles.get_index_of(&task).unwrap_or(0);
    let spot = spot(task, tasks.guesses.len());
    if let Some(guess) = tasks.guesses.get_mut(spot) {
        *guess = place;
    }
}

/// Sees that there are more guesses than so many tasks.
fn add_guesses(guesses: &mut Vec<usize>, tasks: usize) -> Result<(), NoMemory> {
    if tasks < guesses.len() {
        return Ok(());
    }
    match guesses.resize(guesses.len().saturating_mul(2).max(8), 0) {
        Ok(()) => Ok(()),
        Err(_) => Err(NoMemory),
    }
}

/// Makes room for a task that has had no elements yet.
pub(crate) fn reserve_task(tasks: &mut Tasks) -> Result<(), NoMemory>
    ensures same { tasks.new.circles.entries ≡ tasks.old.circles.entries }
    ensures room { OnOk result (1 ≤ spare tasks.new.circles) }
{
    add_guesses(&mut tasks.guesses, tasks.circles.len())?;
    match tasks.circles.reserve(1) {
        Ok(()) => Ok(()),
        Err(_) => Err(NoMemory),
    }
}

/// Whether a task stands at this place.
fn is_at(circles: &IndexMap<TaskId, Ring>, place: usize, task: TaskId) -> bool
    ensures { result ≡ true → slice_get circles.now.entries place ≡ Some (task, ring_of circles.now.entries task) }
{
    match circles.get_index(place) {
        Some((known, _)) => is_same_task(task, *known),
        None => false,
    }
}

/// The circle of a task that is looked up by its hash.
fn hashed(circles: &IndexMap<TaskId, Ring>, task: TaskId) -> Ring
    ensures { result ≡ ring_of circles.now.entries task }
{
    circles.get(&task).copied().unwrap_or(Ring::empty())
}

/// The circle of a task's elements.
pub(crate) fn task_ring(tasks: &Tasks, task: TaskId) -> Ring
    ensures { result ≡ ring_of tasks.now.circles.entries task }
{
    if let Some((known, ring)) = tasks.circles.get_index(guess(tasks, task)) {
        if is_same_task(task, *known) {
            return *ring;
        }
    }
    hashed(&tasks.circles, task)
}

/// Puts an element last among those of the task at a place, and gives the task's circle as it was.
fn add_at(circles: &mut IndexMap<TaskId, Ring>, place: usize, _task: TaskId, key: u32) -> Ring
    requires at { slice_get circles.old.entries place ≡ Some (_task, ring_of circles.old.entries _task) }
    requires few { (ring_of circles.old.entries _task).len < 0xffff_ffff }
    ensures was { result ≡ ring_of circles.old.entries _task }
    ensures rings { (t : TaskValue) → ring_of circles.new.entries t ≡ cond (same_task _task t) (ring_with (ring_of circles.old.entries _task) key) (ring_of circles.old.entries t) }
{
    match circles.get_index_mut(place) {
        Some(ring) => {
            let was = *ring;
            *ring = was.with(key);
            was
        }
        None => unreachable!(),
    }
}

/// A task has this circle from now on.
#[tactic(auto, using(crate::proofs::TaskLemmas::changes))]
fn put(circles: &mut IndexMap<TaskId, Ring>, task: TaskId, ring: Ring)
    requires { 1 ≤ spare circles.old }
    ensures { (t : TaskValue) → ring_of circles.new.entries t ≡ cond (same_task task t) ring (ring_of circles.old.entries t) }
{
    match circles.insert(task, ring) {
        Ok(_) => {}
        Err(_) => unreachable!(),
    }
}

/// Puts an element last among those of a task wherever it stands, and gives the task's circle as it was.
fn add_to(circles: &mut IndexMap<TaskId, Ring>, task: TaskId, key: u32) -> Ring
    requires room { 1 ≤ spare circles.old }
    requires few { (ring_of circles.old.entries task).len < 0xffff_ffff }
    ensures was { result ≡ ring_of circles.old.entries task }
    ensures rings { (t : TaskValue) → ring_of circles.new.entries t ≡ cond (same_task task t) (ring_with (ring_of circles.old.entries task) key) (ring_of circles.old.entries t) }
{
    let was = hashed(circles, task);
    let longer = was.with(key);
    put(circles, task, longer);
    was
}

/// Puts an element last among those of a task, and gives the task's circle as it was.
pub(crate) fn add_to_task(tasks: &mut Tasks, task: TaskId, key: u32) -> Ring
    requires room { 1 ≤ spare tasks.old.circles }
    requires few { (ring_of tasks.old.circles.entries task).len < 0xffff_ffff }
    ensures was { result ≡ ring_of tasks.old.circles.entries task }
    ensures rings { (t : TaskValue) → ring_of tasks.new.circles.entries t ≡ cond (same_task task t) (ring_with (ring_of tasks.old.circles.entries task) key) (ring_of tasks.old.circles.entries t) }
{
    let place = guess(tasks, task);
    if is_at(&tasks.circles, place, task) {
        return add_at(&mut tasks.circles, place, task, key);
    }
    let ring = add_to(&mut tasks.circles, task, key);
    note(tasks, task);
    ring
}

/// A task that has had a circle has this one from now on.
#[tactic(auto, using(crate::proofs::TaskLemmas::changes))]
pub(crate) fn change_task_ring(tasks: &mut Tasks, task: TaskId, ring: Ring)
    requires { is_known tasks.old.circles.entries task ≡ true }
    ensures { (t : TaskValue) → ring_of tasks.new.circles.entries t ≡ cond (same_task task t) ring (ring_of tasks.old.circles.entries t) }
{
    if let Some(known) = tasks.circles.get_mut(&task) {
        *known = ring;
    }
}

/// Takes an element that led to this next one from those of a task that has had a circle.
#[tactic(auto, using(crate::proofs::TaskLemmas::changes))]
fn take_from(circles: &mut IndexMap<TaskId, Ring>, task: TaskId, key: u32, next: u32)
    requires { is_known circles.old.entries task ≡ true }
    ensures { (t : TaskValue) → ring_of circles.new.entries t ≡ cond (same_task task t) (ring_without (ring_of circles.old.entries task) key next) (ring_of circles.old.entries t) }
{
    if let Some(ring) = circles.get_mut(&task) {
        *ring = ring.without(key, next);
    }
}

/// The same of the task at a place.
fn take_at(circles: &mut IndexMap<TaskId, Ring>, place: usize, _task: TaskId, key: u32, next: u32)
    requires { slice_get circles.old.entries place ≡ Some (_task, ring_of circles.old.entries _task) }
    ensures { (t : TaskValue) → ring_of circles.new.entries t ≡ cond (same_task _task t) (ring_without (ring_of circles.old.entries _task) key next) (ring_of circles.old.entries t) }
{
    match circles.get_index_mut(place) {
        Some(ring) => {
            *ring = ring.without(key, next);
        }
        None => unreachable!(),
    }
}

/// The same, wherever the task stands.
pub(crate) fn take_from_task(tasks: &mut Tasks, task: TaskId, key: u32, next: u32)
    requires { is_known tasks.old.circles.entries task ≡ true }
    ensures { (t : TaskValue) → ring_of tasks.new.circles.entries t ≡ cond (same_task task t) (ring_without (ring_of tasks.old.circles.entries task) key next) (ring_of tasks.old.circles.entries t) }
{
    let place = guess(tasks, task);
    if is_at(&tasks.circles, place, task) {
        take_at(&mut tasks.circles, place, task, key, next);
    } else {
        take_from(&mut tasks.circles, task, key, next);
    }
}
