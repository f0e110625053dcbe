//! How the sleeps of a run's workers end, which a gate is told.
//!
//! Whoever gives a system something to do calls its worker. Where that is lost a run comes to its end all the same: the last worker that
//! falls asleep calls those that have yet to come to rest, which find then what they weren't called for; and who is called so again and
//! again, and has nothing to do, gives up, as do the others then. So a wake that is lost would show in time alone, and is counted here.
use crate::progress::Progress;
use crossbeam_utils::atomic::AtomicCell;
use grs_base::{MOST_SYSTEMS, NoMemory, SysId};
use grs_top::Status;
use grs_workers::{Gate, Woken, Worker};
use std::alloc::Global;

/// How a run ended.
#[derive(Clone, Copy, Debug, PartialEq, Eq)]
pub struct End {
    pub status: Status,
    /// How often a worker gave up, or was called since one did or has no thread, or since all had come to rest and weren't told so.
    pub left: u64,
    /// How many lines tasks were told behind a call of their system's worker since all others slept.
    pub lost: u64,
}

/// The end of a run that is right, in which each worker has a thread.
pub const RIGHT: End = End {
    status: Status::Done,
    left: 0,
    lost: 0,
};

/// What a system is told behind a call of its worker since all others slept. Nobody had anything to do then but commands of a desk, of
/// which none is left by then in these decks, so nobody is told anything any more.
#[derive(Drop)]
struct Behind {
    progress: Progress,
    /// Its worker was called so.
    alone: AtomicCell<bool>,
    /// How many lines it had been told when its worker was lent first behind that.
    ahead: AtomicCell<u64>,
}

impl Behind {
    fn new() -> Behind {
        Behind {
            progress: Progress::new(),
            alone: AtomicCell::new(false),
            ahead: AtomicCell::new(u64::MAX),
        }
    }

    /// The system's worker is lent.
    fn keep(&self, worker: &Worker<'_>) {
        self.progress.keep(worker);
        if self.alone.load() {
            self.ahead.fetch_min(self.progress.told.load());
        }
    }

    fn told(&self) -> u64 {
        self.progress.told.load().saturating_sub(self.ahead.load())
    }
}

/// A gate, and beside it how sleeps end.
#[derive(Drop)]
pub struct Sleeps<'g, G> {
    gate: &'g G,
    systems: Vec<Behind>,
    left: AtomicCell<u64>,
}

impl<'g, G: Gate> Sleeps<'g, G> {
    /// Ahead of a run.
    pub fn new(alloc: Global, gate: &'g G) -> Result<Sleeps<'g, G>, NoMemory> {
        let mut systems = Vec::new(alloc);
        for _ in 0..MOST_SYSTEMS {
            if systems.push(Behind::new()).is_err() {
                return Err(NoMemory);
            }
        }
        Ok(Sleeps {
            gate,
            systems,
            left: AtomicCell::new(0),
        })
    }

    /// How a run with this status ended.
    pub fn end(&self, status: Status) -> End {
        let mut lost = 0u64;
        for system in &self.systems {
            lost = lost.saturating_add(system.told());
        }
        End {
            status,
            left: self.left.load(),
            lost,
        }
    }

    fn keep(&self, system: SysId, worker: &Worker<'_>) {
        if let Some(system) = self.systems.get(system.0 as usize) {
            system.keep(worker);
        }
    }

    /// The system's worker was called since all others slept.
    fn was_alone(&self, system: SysId) {
        if let Some(system) = self.systems.get(system.0 as usize) {
            system.alone.store(true);
        }
    }
}

impl<'g, G: Gate> Gate for Sleeps<'g, G> {
    fn before(&self, system: SysId, worker: &Worker<'_>) {
        self.keep(system, worker);
        self.gate.before(system, worker);
    }

    fn after(&self, system: SysId, worker: &Worker<'_>) {
        self.keep(system, worker);
        self.gate.after(system, worker);
    }

    fn woken(&self, system: SysId, how: Woken) {
        match how {
            Woken::Called => {}
            Woken::Alone => self.was_alone(system),
            Woken::Late | Woken::Left | Woken::Never => {
                self.left.fetch_add(1);
            }
        }
    }
}
