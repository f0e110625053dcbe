//! That workers are there beside each other: one is held ahead of its first call until another, which begins no sooner, has been
//! answered its second. Whoever waits for the one that is held, but only for a time, passes this too: that is for
//! `star`, `beside` and `mails`, which refuse a time of some milliseconds and more. And that the printed steps are those of the workers.
use crate::progress::{Progress, keep};
use crate::runs::{ran, reaches};
use crate::sleeps::{End, RIGHT};
use crossbeam_utils::atomic::AtomicCell;
use grs_base::{List, SysId};
use grs_workers::{Gate, Worker};
use std::test::Fail;

/// Two systems of a ring with a task each that want the same resource.
const RING: &[u8] = b"SYSTEM SYA\nJOB J1\nTASK T1\nENQ (A,B,E,SYSTEMS)\nDEQ (A,B,SYSTEMS)\n\
    SYSTEM SYB\nJOB J1\nTASK T1\nENQ (A,B,E,SYSTEMS)\nDEQ (A,B,SYSTEMS)\n";

/// Holds the first call of one system until the second call of another is answered, and the first call of the other until the one has
/// come. So whichever comes sooner waits for both to be at the gate.
#[derive(Drop)]
struct Held {
    first: SysId,
    second: SysId,
    came: AtomicCell<u64>,
    systems: [Progress; 2],
    /// The one saw that the other was answered.
    passed: AtomicCell<bool>,
    /// The other saw that the one had come.
    met: AtomicCell<bool>,
}

impl Held {
    fn new(first: u8, second: u8) -> Held {
        Held {
            first: SysId(first),
            second: SysId(second),
            came: AtomicCell::new(0),
            systems: [Progress::new(), Progress::new()],
            passed: AtomicCell::new(false),
            met: AtomicCell::new(false),
        }
    }

    /// Whether the other is answered its second call in the end.
    fn other_gets_on(&self) -> bool {
        match self.systems.get(self.second.0 as usize) {
            Some(other) => reaches(&other.calls, 2),
            None => false,
        }
    }

    fn hold(&self, system: SysId) {
        if system == self.first {
            self.came.store(1);
            self.passed.store(self.other_gets_on());
        } else if system == self.second {
            self.met.store(reaches(&self.came, 1));
        }
    }
}

impl Gate for Held {
    fn before(&self, system: SysId, worker: &Worker<'_>) {
        keep(&self.systems, system, worker);
        if worker.calls == 0 {
            self.hold(system);
        }
    }

    fn after(&self, system: SysId, worker: &Worker<'_>) {
        keep(&self.systems, system, worker);
    }
}

/// How many lines of a report's schedule begin so. Behind the line that says how many there are comes the schedule, and behind it
/// the history.
fn events_of(report: &[u8], front: &[u8]) -> u64 {
    let mut count = 0u64;
    for line in report.split(|byte| *byte == b'\n').skip(2) {
        if line.starts_with(b"HISTORY ") {
            break;
        }
        count = count.saturating_add(u64::from(line.starts_with(front)));
    }
    count
}

/// What a run came to: its end, whether both calls that were held passed, and of each system whether the schedule has as many
/// steps as the log of its worker had, and at least one.
#[derive(Clone, Copy, Debug, PartialEq, Eq)]
struct Outcome {
    end: End,
    passed: bool,
    steps: [bool; 2],
}

fn is_counted(progress: &Progress, count: u64) -> bool {
    count >= 1 && progress.steps.load() == count
}

impl Outcome {
    fn of(end: End, report: &[u8], gate: &Held) -> Outcome {
        Outcome {
            end,
            passed: gate.passed.load() && gate.met.load(),
            steps: [
                is_counted(&gate.systems[0], events_of(report, b"SYA ")),
                is_counted(&gate.systems[1], events_of(report, b"SYB ")),
            ],
        }
    }
}

#[test]
fn a_system_that_is_held_lets_another_go_on(rt: HostRuntime) -> Result<(), Fail> {
    let right = Outcome {
        end: RIGHT,
        passed: true,
        steps: [true, true],
    };
    for (first, second) in [(0, 1), (1, 0)] {
        let gate = Held::new(first, second);
        let deck = List::from_bytes(rt.alloc(), RING)?;
        let (end, report) = ran(&rt, rt.alloc(), deck, &gate)?;
        assert_eq!(rt; Outcome::of(end, report.as_slice(), &gate), right);
    }
    Ok(())
}
