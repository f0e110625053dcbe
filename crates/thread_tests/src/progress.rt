//! How far systems get, as their workers show where a gate is lent them.
use crossbeam_utils::atomic::AtomicCell;
use grs_base::{NoMemory, SysId};
use grs_workers::Worker;
use std::alloc::Global;

/// How far a system had got when its worker was lent last.
#[derive(Drop)]
pub struct Progress {
    /// How many calls it was answered.
    pub calls: AtomicCell<u64>,
    /// How many steps its log had.
    pub steps: AtomicCell<u64>,
    /// How many lines its tasks and its desk had been told.
    pub told: AtomicCell<u64>,
}

impl Progress {
    pub fn new() -> Progress {
        Progress {
            calls: AtomicCell::new(0),
            steps: AtomicCell::new(0),
            told: AtomicCell::new(0),
        }
    }

    /// The system's worker is lent. Of its log those steps alone are gone through that are new.
    pub fn keep(&self, worker: &Worker<'_>) {
        let steps = worker.node.log();
        let mut told = self.told.load();
        for place in self.steps.load() as usize..steps.len() {
            told = told.saturating_add(steps[place].told.len() as u64);
        }
        self.told.store(told);
        self.steps.store(steps.len() as u64);
        self.calls.store(worker.calls);
    }
}

/// So many systems that have yet to begin.
pub fn to_begin(alloc: Global, systems: usize) -> Result<Vec<Progress>, NoMemory> {
    let mut all = Vec::new(alloc);
    for _ in 0..systems {
        if all.push(Progress::new()).is_err() {
            return Err(NoMemory);
        }
    }
    Ok(all)
}

/// The worker of this one of the systems is lent.
pub fn keep(systems: &[Progress], system: SysId, worker: &Worker<'_>) {
    if let Some(progress) = systems.get(system.0 as usize) {
        progress.keep(worker);
    }
}
