//! That two systems of a ring do what needs no message behind their calls, while the third is held.
//!
//! Each of the two asks for a resource of the complex, and what it does behind that needs no message. So it begins at the turn that
//! brings it the answer. The third has nothing to ask for. It is held behind the turn at which both requests came by it, so that the
//! message is on its way to the two. They are held behind the turns that bring their answers until the third is, so what they do then
//! they do beside it. As the message doesn't come back meanwhile, it is seen by a call of their desks, each of which removes a fourth
//! system behind so many events.
use crate::progress::{Progress, keep};
use crate::runs::{NAMES, add_system, ran, reaches};
use crate::sleeps::{End, RIGHT};
use crossbeam_utils::atomic::AtomicCell;
use grs_base::{List, NoMemory, SysId};
use grs_wire::Choice;
use grs_workers::{Gate, Worker};
use std::alloc::Global;
use std::sync::Wait;
use std::test::Fail;
use std::thread::Threads;

/// How many systems there are, with the one that is removed.
const SYSTEMS: u64 = 4;

/// The desk of each of the two, and what its task asks for first.
const FIRST: &[u8] = b"AT 600 VARY GRS(SYD),PURGE\nJOB J1\nTASK T1\nENQ (A,B,S,SYSTEMS)\n";

/// What it asks for and gives back behind that, without a call.
const OWN: &[u8] = b"ENQ (A,B,E,SYSTEM)\nDEQ (A,B,SYSTEM)\n";

const OWN_PAIRS: u32 = 300;

/// How many lines each of the two is told at least when its desk calls, of 601 in all: it has 600 events by then, of which a few are turns.
const ANSWERS: u64 = 590;

/// How many turns a worker's system made that its log has.
fn turns_of(worker: &Worker<'_>) -> u64 {
    let mut turns = 0u64;
    for step in worker.node.log() {
        turns = turns.saturating_add(u64::from(matches!(step.choice, Choice::Turn)));
    }
    turns
}

/// Holds one system of a ring once the requests of both others came by it, until these were told so many answers.
#[derive(Drop)]
struct Held {
    held: SysId,
    /// How many systems came to their first call.
    begun: AtomicCell<u64>,
    /// 1 once the one was held.
    came: AtomicCell<u64>,
    /// How far the three get.
    systems: [Progress; 3],
    /// How often a system waited and gave up.
    gave_up: AtomicCell<u64>,
    /// The one that was held saw the others get so far.
    passed: AtomicCell<bool>,
}

impl Held {
    fn new(held: u8) -> Held {
        Held {
            held: SysId(held),
            begun: AtomicCell::new(0),
            came: AtomicCell::new(0),
            systems: [Progress::new(), Progress::new(), Progress::new()],
            gave_up: AtomicCell::new(0),
            passed: AtomicCell::new(false),
        }
    }

    /// Behind how many turns of the one both requests came by it. The message is at the first system in the beginning, so the last of
    /// three has them at its first turn.
    fn turns(&self) -> u64 {
        if self.held.0 == 2 { 1 } else { 2 }
    }

    /// Whether each of the others was told so many answers in the end.
    fn others_get_on(&self) -> bool {
        let mut all = true;
        for (place, progress) in self.systems.iter().enumerate() {
            all = all && (place == self.held.0 as usize || reaches(&progress.told, ANSWERS));
        }
        all
    }

    /// Whether a system was told an answer.
    fn was_told(&self, system: SysId) -> bool {
        match self.systems.get(system.0 as usize) {
            Some(progress) => progress.told.load() >= 1,
            None => false,
        }
    }

    /// A system waits ahead of its first call until all came to theirs, so that all run beside each other from there on.
    fn begin(&self) {
        self.begun.fetch_add(1);
        self.gave_up
            .fetch_add(u64::from(!reaches(&self.begun, SYSTEMS)));
    }

    /// The one is held, where it has yet to be.
    fn hold(&self) {
        if self.came.load() != 0 {
            return;
        }
        self.came.store(1);
        let passed = self.others_get_on();
        self.passed.store(passed);
        self.gave_up.fetch_add(u64::from(!passed));
    }
}

impl Gate for Held {
    fn before(&self, system: SysId, worker: &Worker<'_>) {
        keep(&self.systems, system, worker);
        if worker.calls == 0 {
            self.begin();
        }
    }

    fn after(&self, system: SysId, worker: &Worker<'_>) {
        keep(&self.systems, system, worker);
        if system == self.held {
            if turns_of(worker) >= self.turns() {
                self.hold();
            }
        } else if self.was_told(system) && !reaches(&self.came, 1) {
            self.gave_up.fetch_add(1);
        }
    }
}

/// What a run came to: its end, whether the one that was held passed, and how often a system waited and gave up.
#[derive(Clone, Copy, Debug, PartialEq, Eq)]
struct Outcome {
    end: End,
    passed: bool,
    gave_up: u64,
}

/// The one that is held and a fourth system have nothing to do; each of the two others has a desk and a task.
fn deck_of(alloc: Global, held: u8) -> Result<List<u8>, NoMemory> {
    let mut deck = List::new(alloc);
    for (place, name) in NAMES.iter().enumerate().take(SYSTEMS as usize) {
        add_system(&mut deck, name, b"", 0)?;
        if place != held as usize && place < 3 {
            deck.append(FIRST)?;
            for _ in 0..OWN_PAIRS {
                deck.append(OWN)?;
            }
        }
    }
    Ok(deck)
}

/// A run in which this one of the three is held.
fn outcome_of<R: Threads + Wait + Sync>(
    rt: &R,
    alloc: Global,
    held: u8,
) -> Result<Outcome, NoMemory> {
    let gate = Held::new(held);
    let (end, _) = ran(rt, alloc, deck_of(alloc, held)?, &gate)?;
    Ok(Outcome {
        end,
        passed: gate.passed.load(),
        gave_up: gate.gave_up.load(),
    })
}

fn right() -> Outcome {
    Outcome {
        end: RIGHT,
        passed: true,
        gave_up: 0,
    }
}

#[test]
fn two_of_a_ring_do_what_needs_no_message_while_the_first_is_held(
    rt: HostRuntime,
) -> Result<(), Fail> {
    assert_eq!(rt; outcome_of(&rt, rt.alloc(), 0)?, right());
    Ok(())
}

#[test]
fn two_of_a_ring_do_what_needs_no_message_while_the_second_is_held(
    rt: HostRuntime,
) -> Result<(), Fail> {
    assert_eq!(rt; outcome_of(&rt, rt.alloc(), 1)?, right());
    Ok(())
}

#[test]
fn two_of_a_ring_do_what_needs_no_message_while_the_third_is_held(
    rt: HostRuntime,
) -> Result<(), Fail> {
    assert_eq!(rt; outcome_of(&rt, rt.alloc(), 2)?, right());
    Ok(())
}
