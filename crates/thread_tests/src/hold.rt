//! A gate that holds some systems until others got on.
use crate::progress::Progress;
use crate::runs::reaches;
use crate::sleeps::End;
use crossbeam_utils::atomic::AtomicCell;
use grs_base::{NoMemory, SysId};
use grs_workers::{Gate, Worker};
use std::alloc::Global;

/// What becomes of a system.
#[derive(Clone, Copy, Debug, PartialEq, Eq)]
pub enum Part {
    /// It is held until the systems that go on got on.
    Held,
    /// It goes on meanwhile.
    GoesOn,
    /// It goes on or doesn't, and nobody waits for it.
    Free,
}

/// A system, with how far it got.
#[derive(Drop)]
struct Place {
    part: Part,
    progress: Progress,
}

/// Behind so many calls, ahead of their next, those that are held wait until each that goes on was answered `calls` calls and has `steps`
/// steps in its log, and those that go on wait until all that are held have come. Ahead of its second call each waits until all that
/// aren't held ahead of their first were answered one, so that none is done before another begins.
#[derive(Drop)]
pub struct Hold {
    behind: u64,
    calls: u64,
    steps: u64,
    places: Vec<Place>,
    /// How many are held, and how many of these came to the call ahead of which they are.
    held: u64,
    came: AtomicCell<u64>,
    /// How many that were held saw the others get on.
    passed: AtomicCell<u64>,
    /// How often a system waited and gave up.
    gave_up: AtomicCell<u64>,
}

/// What came of a run: its end, how many that were held saw the others get on, and how often a system waited and gave up.
#[derive(Clone, Copy, Debug, PartialEq, Eq)]
pub struct Outcome {
    pub end: End,
    pub passed: u64,
    pub gave_up: u64,
}

impl Hold {
    /// A gate for systems with these parts.
    pub fn new(
        alloc: Global,
        parts: &[Part],
        behind: u64,
        calls: u64,
        steps: u64,
    ) -> Result<Hold, NoMemory> {
        let mut places = Vec::new(alloc);
        let mut held = 0u64;
        for part in parts {
            held = held.saturating_add(u64::from(*part == Part::Held));
            let place = Place {
                part: *part,
                progress: Progress::new(),
            };
            if places.push(place).is_err() {
                return Err(NoMemory);
            }
        }
        Ok(Hold {
            behind,
            calls,
            steps,
            places,
            held,
            came: AtomicCell::new(0),
            passed: AtomicCell::new(0),
            gave_up: AtomicCell::new(0),
        })
    }

    pub fn outcome(&self, end: End) -> Outcome {
        Outcome {
            end,
            passed: self.passed.load(),
            gave_up: self.gave_up.load(),
        }
    }

    /// Whether each system of this part is answered so many calls in the end, and has so many steps.
    fn reach(&self, part: Part, calls: u64, steps: u64) -> bool {
        let mut all = true;
        for place in &self.places {
            all = all
                && (place.part != part
                    || reaches(&place.progress.calls, calls)
                        && reaches(&place.progress.steps, steps));
        }
        all
    }

    /// A system that is held came: whether the others get on.
    fn hold(&self) -> bool {
        self.came.fetch_add(1);
        let get_on = self.reach(Part::GoesOn, self.calls, self.steps);
        self.passed.fetch_add(u64::from(get_on));
        get_on
    }

    /// Whether all that aren't held ahead of their first call are answered one in the end.
    fn all_begin(&self) -> bool {
        self.reach(Part::GoesOn, 1, 0)
            && self.reach(Part::Free, 1, 0)
            && (self.behind == 0 || self.reach(Part::Held, 1, 0))
    }

    /// A system with this part has a call to make, behind so many: whether what it waits for came about.
    fn waits(&self, part: Part, calls: u64) -> bool {
        match part {
            Part::Held if calls == self.behind => self.hold(),
            Part::GoesOn if calls == self.behind => reaches(&self.came, self.held),
            _ if calls == 1 => self.all_begin(),
            _ => true,
        }
    }
}

impl Gate for Hold {
    fn before(&self, system: SysId, worker: &Worker<'_>) {
        let goes_on = match self.places.get(system.0 as usize) {
            Some(place) => {
                place.progress.keep(worker);
                self.waits(place.part, worker.calls)
            }
            None => false,
        };
        self.gave_up.fetch_add(u64::from(!goes_on));
    }

    fn after(&self, system: SysId, worker: &Worker<'_>) {
        if let Some(place) = self.places.get(system.0 as usize) {
            place.progress.keep(worker);
        }
    }
}
