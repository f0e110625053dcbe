//! That two systems mail to and fro while a third is in the midst of an event.
//!
//! All three ask for one resource and give it back, the third once, and it looks up a name behind that. So it slept ahead of its long
//! event until one of the two called it. Where workers hand on a token when they fall asleep, and pass it by behind some time, it
//! has the token by then, and each mail of the two takes so long.
use crate::long::{Long, add_long, add_patterns};
use crate::runs::{NAMES, STAR, add_system, once, ran, reaches};
use crate::sleeps::End;
use crossbeam_utils::atomic::AtomicCell;
use grs_base::{List, NoMemory, SysId};
use grs_workers::{Gate, Worker};
use std::alloc::Global;
use std::sync::Wait;
use std::test::Fail;
use std::thread::Threads;

/// What all ask for and give back, and how often the two do.
const SHARED: &[u8] = b"ENQ (A,F,E,SYSTEMS),RNL=NO\nDEQ (A,F,SYSTEMS),RNL=NO\n";

const PAIRS: u32 = 600;

/// How many lines the third is told ahead of its long event: its two answers.
const AHEAD: u64 = 2;

/// How many calls the two are answered in its course, together.
const CALLS: u64 = 2_000;

/// The third asks for the resource once both others were answered a call, so that one of them manages it, and these go on behind that once
/// the third has come.
#[derive(Drop)]
struct Mails {
    long: Long,
    /// How many of the two were answered a call.
    began: AtomicCell<u64>,
    /// 1 once the third came to its first call.
    came: AtomicCell<u64>,
    /// How often a system waited and gave up.
    gave_up: AtomicCell<u64>,
}

impl Mails {
    fn new(alloc: Global, third: u8) -> Result<Mails, NoMemory> {
        Ok(Mails {
            long: Long::new(alloc, 3, third, AHEAD)?,
            began: AtomicCell::new(0),
            came: AtomicCell::new(0),
            gave_up: AtomicCell::new(0),
        })
    }

    fn wait(&self, count: &AtomicCell<u64>, least: u64) {
        self.gave_up.fetch_add(u64::from(!reaches(count, least)));
    }

    /// Whether the two got so far while the third looked up.
    fn is_right(&self) -> bool {
        self.long.meanwhile() >= CALLS && self.gave_up.load() == 0
    }
}

impl Gate for Mails {
    fn before(&self, system: SysId, worker: &Worker<'_>) {
        self.long.before(system, worker);
        if self.long.is_of(system) && worker.calls == 0 {
            self.came.store(1);
            self.wait(&self.began, 2);
        } else if !self.long.is_of(system) && worker.calls == 1 {
            self.wait(&self.began, 2);
            self.wait(&self.came, 1);
        }
    }

    fn after(&self, system: SysId, worker: &Worker<'_>) {
        self.long.after(system, worker);
        if !self.long.is_of(system) && worker.calls == 1 {
            self.began.fetch_add(1);
        }
    }
}

/// Three systems of a star.
fn deck_of(alloc: Global, third: u8) -> Result<List<u8>, NoMemory> {
    let mut deck = List::from_bytes(alloc, STAR)?;
    add_patterns(&mut deck)?;
    for (place, name) in NAMES.iter().enumerate().take(3) {
        if place == third as usize {
            add_system(&mut deck, name, SHARED, 1)?;
            add_long(&mut deck)?;
        } else {
            add_system(&mut deck, name, SHARED, PAIRS)?;
        }
    }
    Ok(deck)
}

/// How a run ended, and whether it is right.
fn one_run<R: Threads + Wait + Sync>(
    rt: &R,
    alloc: Global,
    third: u8,
) -> Result<(End, bool), NoMemory> {
    let gate = Mails::new(alloc, third)?;
    let (end, _) = ran(rt, alloc, deck_of(alloc, third)?, &gate)?;
    Ok((end, gate.is_right()))
}

/// Whether one of a few is, as the threads of all have to get on at the same time.
fn is_right_once<R: Threads + Wait + Sync>(
    rt: &R,
    alloc: Global,
    third: u8,
) -> Result<bool, NoMemory> {
    once(&|| one_run(rt, alloc, third))
}

#[test]
fn two_mail_while_the_first_makes_a_long_event(rt: HostRuntime) -> Result<(), Fail> {
    assert!(rt; is_right_once(&rt, rt.alloc(), 0)?);
    Ok(())
}

#[test]
fn two_mail_while_the_second_makes_a_long_event(rt: HostRuntime) -> Result<(), Fail> {
    assert!(rt; is_right_once(&rt, rt.alloc(), 1)?);
    Ok(())
}

#[test]
fn two_mail_while_the_third_makes_a_long_event(rt: HostRuntime) -> Result<(), Fail> {
    assert!(rt; is_right_once(&rt, rt.alloc(), 2)?);
    Ok(())
}
