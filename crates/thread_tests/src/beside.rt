//! That a system goes on while another is in the midst of an event.
//!
//! A gate holds a worker at a call alone, so one lock for all events that is let go there lets everybody pass where somebody is held.
//! Here one of two systems looks up a name, which is an event that takes long and has no call. Meanwhile the other makes thousands of
//! events that look up nothing, and comes to its second call behind them, which the gate sees.
use crate::long::{Long, add_long, add_patterns};
use crate::runs::{NAMES, STAR, add_system, once, ran, reaches};
use crate::sleeps::End;
use crossbeam_utils::atomic::AtomicCell;
use grs_base::{List, NoMemory, SysId};
use grs_workers::{Gate, Worker};
use std::alloc::Global;
use std::hint;
use std::sync::Wait;
use std::test::Fail;
use std::thread::Threads;

/// What the one that looks up asks for first and gives back, where that comes behind calls. So it ends without another one.
const ASKED_AHEAD: &[u8] = b"ENQ (A,C,E,SYSTEMS),RNL=NO\nDEQ (A,C,SYSTEMS),RNL=NO\n";

/// What the one that goes on asks for first, in another lock entry, which is a call; and what it does behind that without one, so many
/// times.
const BEGIN: &[u8] = b"ENQ (A,F,E,SYSTEMS),RNL=NO\n";

const OWN: &[u8] = b"ENQ (A,B,E,SYSTEM),RNL=NO\nDEQ (A,B,SYSTEM),RNL=NO\n";

const PAIRS: u32 = 2_000;

/// How many calls the one that goes on is to be answered meanwhile: the second is behind all that.
const CALLS: u64 = 2;

/// How long the one that goes on waits until the other is in the midst of its event.
const PAUSE: u32 = 10_000;

/// Whether a system looks up ahead of its calls, or behind the first two of them.
#[derive(Clone, Copy, PartialEq, Eq)]
enum LooksUp {
    First,
    BehindCalls,
}

impl LooksUp {
    /// Behind how many calls, each of which brings an answer.
    fn calls(self) -> u64 {
        match self {
            LooksUp::First => 0,
            LooksUp::BehindCalls => 2,
        }
    }
}

/// Counts the calls of the one that goes on. Where the long event comes behind calls, the one that looks up is held ahead of the first
/// until the other has come to its own first, and the other until they were answered.
#[derive(Drop)]
struct Beside {
    when: LooksUp,
    long: Long,
    /// 1 once the one that goes on came to its first call.
    came: AtomicCell<u64>,
    /// How often a system waited and gave up.
    gave_up: AtomicCell<u64>,
}

impl Beside {
    fn new(alloc: Global, looks_up: u8, when: LooksUp) -> Result<Beside, NoMemory> {
        Ok(Beside {
            when,
            long: Long::new(alloc, 2, looks_up, when.calls())?,
            came: AtomicCell::new(0),
            gave_up: AtomicCell::new(0),
        })
    }

    fn wait(&self, count: &AtomicCell<u64>, least: u64) {
        self.gave_up.fetch_add(u64::from(!reaches(count, least)));
    }

    /// The one that goes on has its first call to make. Once the other was answered, it takes a moment to begin its event.
    fn hold_other(&self) {
        self.came.store(1);
        if self.when == LooksUp::BehindCalls {
            self.wait(&self.long.one.calls, self.when.calls());
            for _ in 0..PAUSE {
                hint::spin_loop();
            }
        }
    }

    /// Whether the one came so far while the other looked up.
    fn is_right(&self) -> bool {
        self.long.meanwhile() >= CALLS && self.gave_up.load() == 0
    }
}

impl Gate for Beside {
    fn before(&self, system: SysId, worker: &Worker<'_>) {
        self.long.before(system, worker);
        if worker.calls != 0 {
            return;
        }
        if !self.long.is_of(system) {
            self.hold_other();
        } else if self.when == LooksUp::BehindCalls {
            self.wait(&self.came, 1);
        }
    }

    fn after(&self, system: SysId, worker: &Worker<'_>) {
        self.long.after(system, worker);
    }
}

/// The task of the one that looks up.
fn add_lookup(deck: &mut List<u8>, when: LooksUp) -> Result<(), NoMemory> {
    deck.append(b"JOB J1\nTASK T1\n")?;
    if when == LooksUp::BehindCalls {
        deck.append(ASKED_AHEAD)?;
    }
    add_long(deck)
}

/// The task of the one that goes on.
fn add_other(deck: &mut List<u8>) -> Result<(), NoMemory> {
    deck.append(b"JOB J1\nTASK T1\n")?;
    deck.append(BEGIN)?;
    for _ in 0..PAIRS {
        deck.append(OWN)?;
    }
    Ok(())
}

/// Two systems of a star.
fn deck_of(alloc: Global, looks_up: u8, when: LooksUp) -> Result<List<u8>, NoMemory> {
    let mut deck = List::from_bytes(alloc, STAR)?;
    add_patterns(&mut deck)?;
    for (place, name) in NAMES.iter().enumerate().take(2) {
        add_system(&mut deck, name, b"", 0)?;
        if place == looks_up as usize {
            add_lookup(&mut deck, when)?;
        } else {
            add_other(&mut deck)?;
        }
    }
    Ok(deck)
}

/// How a run ended, and whether it is right.
fn one_run<R: Threads + Wait + Sync>(
    rt: &R,
    alloc: Global,
    looks_up: u8,
    when: LooksUp,
) -> Result<(End, bool), NoMemory> {
    let gate = Beside::new(alloc, looks_up, when)?;
    let (end, _) = ran(rt, alloc, deck_of(alloc, looks_up, when)?, &gate)?;
    Ok((end, gate.is_right()))
}

/// Whether one of a few is, as the threads of both have to get on at the same time.
fn is_right_once<R: Threads + Wait + Sync>(
    rt: &R,
    alloc: Global,
    looks_up: u8,
    when: LooksUp,
) -> Result<bool, NoMemory> {
    once(&|| one_run(rt, alloc, looks_up, when))
}

#[test]
fn the_second_goes_on_while_the_first_makes_its_first_event(rt: HostRuntime) -> Result<(), Fail> {
    assert!(rt; is_right_once(&rt, rt.alloc(), 0, LooksUp::First)?);
    Ok(())
}

#[test]
fn the_first_goes_on_while_the_second_makes_its_first_event(rt: HostRuntime) -> Result<(), Fail> {
    assert!(rt; is_right_once(&rt, rt.alloc(), 1, LooksUp::First)?);
    Ok(())
}

#[test]
fn the_second_goes_on_while_the_first_makes_an_event_behind_calls(
    rt: HostRuntime,
) -> Result<(), Fail> {
    assert!(rt; is_right_once(&rt, rt.alloc(), 0, LooksUp::BehindCalls)?);
    Ok(())
}

#[test]
fn the_first_goes_on_while_the_second_makes_an_event_behind_calls(
    rt: HostRuntime,
) -> Result<(), Fail> {
    assert!(rt; is_right_once(&rt, rt.alloc(), 1, LooksUp::BehindCalls)?);
    Ok(())
}
