//! Linked queues: the ends of tasks, wherever their requests stand in their queues and among their own. No part of the
//! program ends a task so: a table takes one request after the other.
ghost use Rattle.std.specs.Prelude.{◌≡◌, ◌<◌, ℕ, true, IfOk, OnOk};

use grs_base::{Ctl, Elem, List, NoMemory, Queues, Standing, Steps, SysId, TaskId};
use qel_store::LinkedQueues;
use std::alloc::Global;
use std::marker::Brand;
use std::sync::ledger::{Blank, Ledger};
use std::test::Fail;

/// Three queues.
#[derive(Drop)]
struct Three {
    queues: LinkedQueues,
    first: u32,
    second: u32,
    third: u32,
    ghost first_live: { ⟦<LinkedQueues as Queues>⟧.is_live queues first ≡ true },
    ghost second_live: { ⟦<LinkedQueues as Queues>⟧.is_live queues second ≡ true },
    ghost third_live: { ⟦<LinkedQueues as Queues>⟧.is_live queues third ≡ true },
}

/// A queue more.
fn made(queues: &mut LinkedQueues) -> Result<u32, NoMemory>
    ensures live { (q : ℕ) → ⟦<LinkedQueues as Queues>⟧.is_live queues.old q ≡ true → OnOk result (⟦<LinkedQueues as Queues>⟧.is_live queues.new q ≡ true) }
    ensures new { IfOk result (λ number. ⟦<LinkedQueues as Queues>⟧.is_live queues.new number ≡ true) }
{
    queues.reserve()?;
    Ok(queues.make())
}

fn make_three(alloc: Global) -> Result<Three, NoMemory> {
    let mut queues = LinkedQueues::new(alloc);
    let first = made(&mut queues)?;
    let second = made(&mut queues)?;
    let third = made(&mut queues)?;
    Ok(Three {
        queues,
        first,
        second,
        third,
    })
}

/// The number of a queue, by its place among the three.
fn number(three: &Three, place: u16) -> u32
    ensures { ⟦<LinkedQueues as Queues>⟧.is_live three.now.queues result ≡ true }
{
    match place {
        0 => three.first,
        1 => three.second,
        _ => three.third,
    }
}

fn task(number: u16) -> TaskId {
    TaskId {
        system: SysId(0),
        job: 0,
        task: number,
    }
}

/// Puts an element of a task last in a queue, unless it has one there.
#[tactic(auto, using(crate::proofs::Standing::absent_place))]
fn put(queues: &mut LinkedQueues, queue: u32, task: TaskId) -> Result<(), NoMemory>
    requires { ⟦<LinkedQueues as Queues>⟧.is_live queues.old queue ≡ true }
    ensures { (q : ℕ) → ⟦<LinkedQueues as Queues>⟧.is_live queues.new q ≡ ⟦<LinkedQueues as Queues>⟧.is_live queues.old q }
{
    queues.reserve()?;
    match queues.standing(queue, task) {
        Standing::Absent => queues.push(queue, Elem { task, ctl: Ctl::S }),
        _ => {}
    }
    Ok(())
}

/// Puts elements in, each of a task and last in a queue.
fn fill(three: &mut Three, pushes: &[(u16, u16)]) -> Result<(), NoMemory> {
    for push in pushes {
        let queue = number(three, push.1);
        put(&mut three.queues, queue, task(push.0))?;
    }
    Ok(())
}

/// Takes a task's elements out of queues.
fn take_all(three: &mut Three, places: &[u16], task: TaskId) {
    for place in places {
        let queue = number(three, *place);
        let _ = three.queues.take_of(queue, task);
    }
}

/// Ends a task: how many elements it had.
fn end<L: Ledger>(three: &mut Three, task: TaskId, blank: Blank) -> u32
    requires name { blank.name ≡ L.name }
    requires parts { blank.parts ≡ L.parts }
    requires some { 0 < blank.parts }
{
    let mut steps = Steps::<L>::begin(blank);
    three.queues.end_task(task, &mut steps)
}

/// Puts the tasks of a queue behind others, and 99 behind them.
fn add_tasks(
    alloc: Global,
    three: &Three,
    place: u16,
    tasks: &mut List<u32>,
) -> Result<(), NoMemory> {
    let elems = three.queues.elems(alloc, number(three, place))?;
    for elem in elems.as_slice() {
        tasks.push(elem.task.task as u32)?;
    }
    tasks.push(99)
}

/// Of queues that are filled so, and of which a task's elements in some are taken out: how many elements the task has
/// left when it ends, and which tasks stand in each queue then.
fn left(
    alloc: Global,
    pushes: &[(u16, u16)],
    taken: &[u16],
    ended: u16,
) -> Result<List<u32>, NoMemory> {
    let mut three = make_three(alloc)?;
    fill(&mut three, pushes)?;
    take_all(&mut three, taken, task(ended));
    let mut tasks = List::new(alloc);
    tasks.push(end::<Brand>(&mut three, task(ended), Blank::new(1)))?;
    for place in 0..3u16 {
        add_tasks(alloc, &three, place, &mut tasks)?;
    }
    Ok(tasks)
}

/// The tasks in each queue once the task has ended and all are put in anew, those that stand there left as they are.
fn left_again(alloc: Global, pushes: &[(u16, u16)], ended: u16) -> Result<List<u32>, NoMemory> {
    let mut three = make_three(alloc)?;
    fill(&mut three, pushes)?;
    let _ = end::<Brand>(&mut three, task(ended), Blank::new(1));
    fill(&mut three, pushes)?;
    let mut tasks = List::new(alloc);
    for place in 0..3u16 {
        add_tasks(alloc, &three, place, &mut tasks)?;
    }
    Ok(tasks)
}

/// Three tasks in three queues, of which the first stands first, in the middle and last.
const EVERYWHERE: &[(u16, u16)] = &[
    (1, 0),
    (2, 0),
    (3, 0),
    (2, 1),
    (1, 1),
    (3, 1),
    (2, 2),
    (3, 2),
    (1, 2),
];

/// Two tasks push in turn onto the queues.
const IN_TURN: &[(u16, u16)] = &[(1, 0), (2, 0), (1, 1), (2, 1), (1, 2), (2, 2)];

/// A task alone in two queues.
const ALONE: &[(u16, u16)] = &[(1, 0), (2, 1), (1, 2)];

/// Nothing is taken out before the task ends.
const NOTHING: &[u16] = &[];

#[test]
fn ends_wherever_requests_stand(rt: HostRuntime) -> Result<(), Fail> {
    for (pushes, taken, ended, expected) in [
        (
            EVERYWHERE,
            NOTHING,
            1,
            [3, 2, 3, 99, 2, 3, 99, 2, 3, 99].as_slice(),
        ),
        (
            EVERYWHERE,
            NOTHING,
            2,
            [3, 1, 3, 99, 1, 3, 99, 3, 1, 99].as_slice(),
        ),
        (
            EVERYWHERE,
            NOTHING,
            3,
            [3, 1, 2, 99, 2, 1, 99, 2, 1, 99].as_slice(),
        ),
        (ALONE, NOTHING, 1, [2, 99, 2, 99, 99].as_slice()),
        (ALONE, NOTHING, 4, [0, 1, 99, 2, 99, 1, 99].as_slice()),
        (
            EVERYWHERE,
            [0].as_slice(),
            1,
            [2, 2, 3, 99, 2, 3, 99, 2, 3, 99].as_slice(),
        ),
        (
            EVERYWHERE,
            [1].as_slice(),
            1,
            [2, 2, 3, 99, 2, 3, 99, 2, 3, 99].as_slice(),
        ),
        (
            EVERYWHERE,
            [2].as_slice(),
            1,
            [2, 2, 3, 99, 2, 3, 99, 2, 3, 99].as_slice(),
        ),
        (
            EVERYWHERE,
            [0, 1].as_slice(),
            1,
            [1, 2, 3, 99, 2, 3, 99, 2, 3, 99].as_slice(),
        ),
        (
            EVERYWHERE,
            [2, 1, 0].as_slice(),
            1,
            [0, 2, 3, 99, 2, 3, 99, 2, 3, 99].as_slice(),
        ),
        (ALONE, [1].as_slice(), 2, [0, 1, 99, 99, 1, 99].as_slice()),
    ] {
        let found = left(rt.alloc(), pushes, taken, ended)?;
        assert_eq!(rt; found.as_slice(), expected);
    }
    Ok(())
}

#[test]
fn fills_again_behind_the_others(rt: HostRuntime) -> Result<(), Fail> {
    for (pushes, ended, expected) in [
        (
            EVERYWHERE,
            1,
            [2, 3, 1, 99, 2, 3, 1, 99, 2, 3, 1, 99].as_slice(),
        ),
        (ALONE, 1, [1, 99, 2, 99, 1, 99].as_slice()),
    ] {
        let found = left_again(rt.alloc(), pushes, ended)?;
        assert_eq!(rt; found.as_slice(), expected);
    }
    Ok(())
}

/// Two tasks push in turn onto the queues; the first element of the second queue is taken, then that of the first.
fn worked<L: Ledger>(alloc: Global, blank: Blank) -> Result<[Option<u32>; 3], NoMemory>
    requires name { blank.name ≡ L.name }
    requires parts { blank.parts ≡ L.parts }
    requires some { 0 < blank.parts }
{
    let mut three = make_three(alloc)?;
    fill(&mut three, IN_TURN)?;
    let mut steps = Steps::<L>::begin(blank);
    take_first(&mut three, 1);
    let first = three.queues.first_of_counted(task(1), &mut steps);
    take_first(&mut three, 0);
    let second = three.queues.first_of_counted(task(1), &mut steps);
    let count = three.queues.end_task(task(1), &mut steps);
    Ok([first, second, Some(count)])
}

/// Takes the first element of a queue, if there is one.
fn take_first(three: &mut Three, place: u16) {
    let queue = number(three, place);
    if three.queues.len(queue) > 0 {
        let _ = three.queues.take(queue, 0);
    }
}

fn works(alloc: Global) -> Result<[Option<u32>; 3], NoMemory> {
    worked::<Brand>(alloc, Blank::new(1))
}

#[test]
fn finds_and_ends_as_worked(rt: HostRuntime) -> Result<(), Fail> {
    assert_eq!(rt; works(rt.alloc())?, [Some(0), Some(2), Some(1)]);
    Ok(())
}
