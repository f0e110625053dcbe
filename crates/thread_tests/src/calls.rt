//! That workers make few calls while there is nothing for them to do. A call that comes to something is a step of its system's log; who asks again
//! and again whether there is something to do makes many that are none.
use crate::progress::{Progress, keep, to_begin};
use crate::runs::{NAMES, add_system, once, ran};
use crate::sleeps::End;
use grs_base::{List, MOST_SYSTEMS, NoMemory, SysId};
use grs_workers::{Gate, Worker};
use std::alloc::Global;
use std::sync::Wait;
use std::test::Fail;
use std::thread::Threads;

/// How often the task of a system asks for the resource of all and gives it back.
const PAIRS: u32 = 25;

/// How many calls there are at most for each step. A call that comes to nothing stands ahead of a sleep, from which a step of another
/// system wakes.
const MOST_CALLS: u64 = 2;

/// How far each system gets.
#[derive(Drop)]
struct Counted {
    systems: Vec<Progress>,
}

impl Gate for Counted {
    fn before(&self, _system: SysId, _worker: &Worker<'_>) {}

    fn after(&self, system: SysId, worker: &Worker<'_>) {
        keep(&self.systems, system, worker);
    }
}

/// Eight systems, of which the first few ask for one resource and give it back, again and again; the others have no task.
fn deck_of(alloc: Global, head: &[u8], busy: usize) -> Result<List<u8>, NoMemory> {
    let mut deck = List::from_bytes(alloc, head)?;
    for (place, name) in NAMES.iter().enumerate() {
        add_system(
            &mut deck,
            name,
            b"ENQ (A,B,E,SYSTEMS)\nDEQ (A,B,SYSTEMS)\n",
            if place < busy { PAIRS } else { 0 },
        )?;
    }
    Ok(deck)
}

/// What a run came to: how many calls were answered, and how many steps the logs have.
#[derive(Clone, Copy)]
struct Outcome {
    calls: u64,
    steps: u64,
}

impl Outcome {
    fn of(systems: &[Progress]) -> Outcome {
        let mut calls = 0u64;
        let mut steps = 0u64;
        for progress in systems {
            calls = calls.saturating_add(progress.calls.load());
            steps = steps.saturating_add(progress.steps.load());
        }
        Outcome { calls, steps }
    }

    fn is_right(&self) -> bool {
        self.calls <= MOST_CALLS.saturating_mul(self.steps)
    }
}

/// How a run of eight systems ended, of which the first few have a task, and whether it is right.
fn one_run<R: Threads + Wait + Sync>(
    rt: &R,
    alloc: Global,
    head: &[u8],
    busy: usize,
) -> Result<(End, bool), NoMemory> {
    let gate = Counted {
        systems: to_begin(alloc, MOST_SYSTEMS)?,
    };
    let (end, _) = ran(rt, alloc, deck_of(alloc, head, busy)?, &gate)?;
    Ok((end, Outcome::of(&gate.systems).is_right()))
}

/// Whether one of a few is.
fn is_right_once<R: Threads + Wait + Sync>(
    rt: &R,
    alloc: Global,
    head: &[u8],
    busy: usize,
) -> Result<bool, NoMemory> {
    once(&|| one_run(rt, alloc, head, busy))
}

#[test]
fn workers_of_a_ring_make_few_calls_beside_their_steps(rt: HostRuntime) -> Result<(), Fail> {
    assert!(rt; is_right_once(&rt, rt.alloc(), b"", MOST_SYSTEMS)?);
    Ok(())
}

#[test]
fn workers_of_a_star_make_few_calls_beside_their_steps(rt: HostRuntime) -> Result<(), Fail> {
    let star = b"COMPLEX MODE(STAR) ENTRIES(1)\n";
    assert!(rt; is_right_once(&rt, rt.alloc(), star, 2)?);
    Ok(())
}
