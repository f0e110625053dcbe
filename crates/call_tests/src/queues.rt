//! Both kinds of queues, call by call: the linked ones, by which the program keeps all lists, and the plain ones, by which it
//! keeps none.
ghost use Rattle.std.specs.Prelude.{◌≡◌, true};

use grs_base::{Ctl, Elem, List, NoMemory, Queues, Standing, SysId, TaskId};
use qel_store::LinkedQueues;
use serial_queue::PlainQueues;
use std::alloc::Global;
use std::test::Fail;

/// A queue among others.
#[derive(Drop)]
struct One<Q: Queues> {
    queues: Q,
    queue: u32,
    ghost live: { Q.is_live queues queue ≡ true },
}

fn task(number: u16) -> TaskId {
    TaskId {
        system: SysId(0),
        job: 0,
        task: number,
    }
}

/// An empty queue.
fn empty_queue<Q: Queues + Drop>(queues: Q) -> Result<One<Q>, NoMemory> {
    let mut queues = queues;
    queues.reserve()?;
    let queue = queues.make();
    Ok(One { queues, queue })
}

/// Puts a task's request last, unless the task has one.
#[tactic(auto, using(crate::proofs::Standing::absent_place))]
fn put<Q: Queues>(one: &mut One<Q>, request: &(u16, Ctl)) -> Result<(), NoMemory> {
    let (queue, task, ctl) = (one.queue, task(request.0), request.1);
    one.queues.reserve()?;
    match one.queues.standing(queue, task) {
        Standing::Absent => one.queues.push(queue, Elem { task, ctl }),
        _ => {}
    }
    Ok(())
}

fn filled<Q: Queues + Drop>(queues: Q, requests: &[(u16, Ctl)]) -> Result<One<Q>, NoMemory> {
    let mut one = empty_queue(queues)?;
    for request in requests {
        put(&mut one, request)?;
    }
    Ok(one)
}

/// Puts tasks behind others, and 99 behind them.
fn add_tasks(tasks: &[TaskId], all: &mut List<u32>) -> Result<(), NoMemory> {
    for task in tasks {
        all.push(task.task as u32)?;
    }
    all.push(99)
}

/// Puts the tasks of requests behind others, and 99 behind them.
fn add_elems(elems: &[Elem], all: &mut List<u32>) -> Result<(), NoMemory> {
    for elem in elems {
        all.push(elem.task.task as u32)?;
    }
    all.push(99)
}

/// How a task stands in a queue of these requests, and whether all are shared; and once its request is taken out, who gets
/// control by it, and whose requests are left.
fn taken_out<Q: Queues + Drop>(
    alloc: Global,
    queues: Q,
    requests: &[(u16, Ctl)],
    number: u16,
) -> Result<(Standing, bool, List<u32>), NoMemory> {
    let mut one = filled(queues, requests)?;
    let queue = one.queue;
    let standing = one.queues.standing(queue, task(number));
    let shared = one.queues.all_shared(queue);
    let mut tasks = List::new(alloc);
    let told = one.queues.take_told(alloc, queue, task(number))?;
    add_tasks(told.as_slice(), &mut tasks)?;
    let left = one.queues.elems(alloc, queue)?;
    add_elems(left.as_slice(), &mut tasks)?;
    Ok((standing, shared, tasks))
}

/// Two that share, behind whom one waits to have it alone and one to share.
const SHARED: &[(u16, Ctl)] = &[(1, Ctl::S), (2, Ctl::S), (3, Ctl::E), (4, Ctl::S)];

/// One that has it alone, behind whom two wait to share and one to have it alone.
const ALONE: &[(u16, Ctl)] = &[(1, Ctl::E), (2, Ctl::S), (3, Ctl::S), (4, Ctl::E)];

/// One that shares with nobody, behind whom one waits to have it alone.
const ONE_SHARES: &[(u16, Ctl)] = &[(1, Ctl::S), (2, Ctl::E)];

#[test]
fn control_passes_on(rt: HostRuntime) -> Result<(), Fail> {
    for (requests, number, standing, shared, expected) in [
        (
            SHARED,
            1,
            Standing::AmongShared,
            false,
            [99, 2, 3, 4, 99].as_slice(),
        ),
        (
            SHARED,
            3,
            Standing::Waits,
            false,
            [4, 99, 1, 2, 4, 99].as_slice(),
        ),
        (
            SHARED,
            4,
            Standing::Waits,
            false,
            [99, 1, 2, 3, 99].as_slice(),
        ),
        (
            ALONE,
            1,
            Standing::Exclusive,
            false,
            [2, 3, 99, 2, 3, 4, 99].as_slice(),
        ),
        (
            ALONE,
            2,
            Standing::Waits,
            false,
            [99, 1, 3, 4, 99].as_slice(),
        ),
        (
            ALONE,
            5,
            Standing::Absent,
            false,
            [99, 1, 2, 3, 4, 99].as_slice(),
        ),
        (
            ONE_SHARES,
            1,
            Standing::OnlyShared,
            false,
            [2, 99, 2, 99].as_slice(),
        ),
        (
            &[(1, Ctl::S)].as_slice(),
            1,
            Standing::OnlyShared,
            true,
            [99, 99].as_slice(),
        ),
    ] {
        let linked = taken_out(rt.alloc(), LinkedQueues::new(rt.alloc()), requests, number)?;
        let plain = taken_out(rt.alloc(), PlainQueues::new(rt.alloc()), requests, number)?;
        for found in [&linked, &plain] {
            assert_eq!(rt; found.0, standing);
            assert_eq!(rt; found.1, shared);
            assert_eq!(rt; found.2.as_slice(), expected);
        }
    }
    Ok(())
}

/// Makes the first request exclusive, if there is one.
fn make_first_exclusive<Q: Queues>(one: &mut One<Q>) {
    let queue = one.queue;
    if one.queues.len(queue) > 0 {
        one.queues.to_exclusive(queue, 0);
    }
}

/// How the first request is.
fn first<Q: Queues>(one: &One<Q>) -> Option<Ctl> {
    if one.queues.len(one.queue) == 0 {
        return None;
    }
    Some(one.queues.elem(one.queue, 0).ctl)
}

/// Takes the first request out: whose it was.
fn take_first<Q: Queues>(one: &mut One<Q>) -> Option<u16> {
    let queue = one.queue;
    if one.queues.len(queue) == 0 {
        return None;
    }
    Some(one.queues.take(queue, 0).task.task)
}

/// Takes out a task's request: how many it had, whether one was there, and whether one still was behind that.
fn take_both<Q: Queues>(one: &mut One<Q>, number: u16) -> (usize, bool, bool) {
    let queue = one.queue;
    let count = one.queues.count(task(number));
    let there = one.queues.take_of(queue, task(number));
    (count, there, one.queues.take_of(queue, task(number)))
}

/// Lets the queue go, if it is empty: whether it was.
fn let_go<Q: Queues + Drop>(one: One<Q>) -> bool {
    let One { mut queues, queue } = one;
    let empty = queues.len(queue) == 0;
    if empty {
        queues.drop_empty(queue);
    }
    empty
}

/// Whether a task's first request is in the queue.
fn is_first<Q: Queues>(one: &One<Q>, number: u16) -> bool {
    one.queues.first_of(task(number)) == Some(one.queue)
}

/// What is seen of a queue of two that share: of its first request, made exclusive and taken out; of the second, found and
/// taken out by its task; and of the queue, let go.
fn emptied<Q: Queues + Drop>(
    queues: Q,
) -> Result<
    (
        Option<Ctl>,
        Option<u16>,
        [bool; 2],
        (usize, bool, bool),
        bool,
    ),
    NoMemory,
> {
    let mut one = filled(queues, &[(1, Ctl::S), (2, Ctl::S)])?;
    make_first_exclusive(&mut one);
    let ctl = first(&one);
    let taken = take_first(&mut one);
    let found = [is_first(&one, 1), is_first(&one, 2)];
    let both = take_both(&mut one, 2);
    Ok((ctl, taken, found, both, let_go(one)))
}

#[test]
fn queues_are_emptied(rt: HostRuntime) -> Result<(), Fail> {
    let seen = (Some(Ctl::E), Some(1), [false, true], (1, true, false), true);
    assert_eq!(rt; emptied(LinkedQueues::new(rt.alloc()))?, seen);
    assert_eq!(rt; emptied(PlainQueues::new(rt.alloc()))?, seen);
    Ok(())
}
