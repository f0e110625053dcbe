//! An event that takes long and makes no call, and what other systems do meanwhile. A task asks for a name of its own system, which is
//! looked up among thousands of patterns. Other requests of such a deck say RNL=NO, so nothing of theirs is looked up.
use crate::progress::{Progress, keep, to_begin};
use crossbeam_utils::atomic::AtomicCell;
use grs_base::{List, MOST_ENTRIES, NoMemory, SysId};
use grs_workers::Worker;
use std::alloc::Global;

/// A pattern of the inclusion list, which has as many as may be. In a name of A's it is compared with a run of 127 wherever one begins,
/// up to its B.
const PATTERN: &[u8] = b"RNLDEF RNL(INCL) TYPE(PATTERN) QNAME(*) RNAME(*";

const RUN: [u8; 127] = [b'A'; 127];

const NAME: [u8; 255] = [b'A'; 255];

/// What a task is told at its long request, the last that it has, and behind it: the answer, and that its job has ended.
const TOLD: u64 = 2;

/// Adds the patterns, ahead of the systems.
pub fn add_patterns(deck: &mut List<u8>) -> Result<(), NoMemory> {
    for _ in 0..MOST_ENTRIES {
        deck.append(PATTERN)?;
        deck.append(&RUN)?;
        deck.append(b"B)\n")?;
    }
    Ok(())
}

/// Adds the long request of a task.
pub fn add_long(deck: &mut List<u8>) -> Result<(), NoMemory> {
    deck.append(b"ENQ (A,")?;
    deck.append(&NAME)?;
    deck.append(b",E,SYSTEM)\n")
}

/// How many calls other systems are answered in the course of one's long event. A gate sees calls alone, so the event begins behind the
/// last call by which its task was told no more than what comes ahead of it, and ends at the next one.
#[derive(Drop)]
pub struct Long {
    system: SysId,
    /// How many lines the task is told ahead of the event.
    ahead: u64,
    /// How far the system got that makes it.
    pub one: Progress,
    /// How far the others got, by their numbers.
    others: Vec<Progress>,
    /// How many calls these had been answered when the event began.
    begun: AtomicCell<u64>,
    /// How many they were answered in its course, once it has ended.
    meanwhile: AtomicCell<u64>,
    over: AtomicCell<bool>,
}

impl Long {
    /// Of so many systems, this one makes the event, behind so many told lines.
    pub fn new(alloc: Global, systems: usize, system: u8, ahead: u64) -> Result<Long, NoMemory> {
        Ok(Long {
            system: SysId(system),
            ahead,
            one: Progress::new(),
            others: to_begin(alloc, systems)?,
            begun: AtomicCell::new(0),
            meanwhile: AtomicCell::new(0),
            over: AtomicCell::new(false),
        })
    }

    /// Whether it is this system that makes the event.
    pub fn is_of(&self, system: SysId) -> bool {
        system == self.system
    }

    /// How many calls the others were answered in its course; none where it hasn't ended, or something else was told by then.
    pub fn meanwhile(&self) -> u64 {
        self.meanwhile.load()
    }

    fn calls_of_others(&self) -> u64 {
        let mut calls = 0u64;
        for progress in &self.others {
            calls = calls.saturating_add(progress.calls.load());
        }
        calls
    }

    /// A worker is lent ahead of a call.
    pub fn before(&self, system: SysId, worker: &Worker<'_>) {
        if !self.is_of(system) {
            keep(&self.others, system, worker);
            return;
        }
        self.one.keep(worker);
        let told = self.one.told.load();
        if told > self.ahead && !self.over.swap(true) && told == self.ahead.saturating_add(TOLD) {
            let calls = self.calls_of_others();
            self.meanwhile
                .store(calls.saturating_sub(self.begun.load()));
        }
    }

    /// A worker is lent behind a call. The calls of the others are counted before they can see that the one was answered.
    pub fn after(&self, system: SysId, worker: &Worker<'_>) {
        if !self.is_of(system) {
            keep(&self.others, system, worker);
            return;
        }
        let calls = self.calls_of_others();
        self.one.keep(worker);
        if self.one.told.load() <= self.ahead {
            self.begun.store(calls);
        }
    }
}
