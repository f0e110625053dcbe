//! That who waits is woken: at the bus, and in a worker's bed. No time-out wakes anybody. Two seats call in bursts, so a wake that is
//! lost in the last call of one isn't made up for by the next: whoever waits for the other gives up behind so many turns. Where nobody
//! is woken at all a test doesn't end within its minute, which the gate counts as a failure. Of two workers it is counted whether one
//! was woken by anything else than by the other's calls.
ghost use Rattle.std.specs.Prelude.{◌≡◌, ◌<◌, All, IfOk};
ghost use Rattle.grs_bus.specs.Seats.{IsSameSeat};
ghost use Rattle.grs_medium.specs.Medium.{systems_of};

use crate::runs::{add_system, ran, reaches};
use crate::sleeps::RIGHT;
use crossbeam_utils::atomic::AtomicCell;
use grs_base::{List, NoMemory, SysId};
use grs_bus::{Bus, Seat};
use grs_medium::Medium;
use grs_wire::{Act, Call, Reply};
use grs_workers::{Gate, Worker};
use std::alloc::Global;
use std::sync::Wait;
use std::test::Fail;
use std::thread;
use std::thread::Threads;

/// How often each of two seats calls the medium, and behind how many calls they wait for each other.
const CALLS: u64 = 100_000;

const BURST: u64 = 10;

/// How often each of two workers asks for the resource of both and gives it back.
const PAIRS: u32 = 1_000;

/// How two seats call in step.
#[derive(Drop)]
struct InStep {
    /// Of each seat, how many calls were answered.
    answered: [AtomicCell<u64>; 2],
    /// How often one waited for the other and gave up.
    gave_up: AtomicCell<u64>,
}

impl InStep {
    /// Whether both seats were answered as many calls in the end.
    fn meets(&self, seat: usize, calls: u64) -> bool {
        if let Some(own) = self.answered.get(seat) {
            own.store(calls);
        }
        for answered in &self.answered {
            if !reaches(answered, calls) {
                self.gave_up.fetch_add(1);
                return false;
            }
        }
        true
    }
}

/// A look into the inbox of a seat's system, which is empty: whether it was answered so.
fn looks<R: Wait>(rt: &R, bus: &Bus, seat: &mut Seat) -> bool
    requires bus { seat.old.bus ≡ bus.now }
    requires system { seat.old.system.0 < systems_of bus.now.first }
    ensures { IsSameSeat seat.old seat.new }
{
    let look = Call {
        known: 0,
        act: Act::Take,
    };
    matches!(bus.call(rt, seat, look), Ok((Reply::Empty, false)))
}

/// Looks so often, in bursts, each as soon as the other seat is done with its last one. Where that doesn't come about, one more call
/// wakes it.
fn look_often<R: Wait>(rt: &R, bus: &Bus, seat: &mut Seat, steps: &InStep)
    requires bus { seat.old.bus ≡ bus.now }
    requires system { seat.old.system.0 < systems_of bus.now.first }
{
    let place = seat.system().0 as usize;
    for calls in 1..CALLS + 1 {
        let goes_on = looks(rt, bus, seat) && (calls % BURST != 0 || steps.meets(place, calls));
        if !goes_on {
            looks(rt, bus, seat);
            return;
        }
    }
}

/// All seats at once.
fn all_look_often<R: Threads + Wait + Sync>(rt: &R, bus: &Bus, seats: &mut [Seat], steps: &InStep)
    requires bus { All (λ s. s.bus ≡ bus.now) seats.old }
    requires systems { All (λ s. s.system.0 < systems_of bus.now.first) seats.old }
{
    thread::for_each_mut(rt, seats, 2, &|_, seat| look_often(rt, bus, seat, steps));
}

/// A bus of two systems, with their seats.
fn two_seats(alloc: Global) -> Result<(Bus, Vec<Seat>), NoMemory>
    ensures bus { IfOk result (λ made. All (λ s. s.bus ≡ made.0) made.1.items) }
    ensures systems { IfOk result (λ made. All (λ s. s.system.0 < systems_of made.0.first) made.1.items) }
{
    let medium = Medium::new(alloc, 2, 1, true)?;
    let (bus, seats) = Bus::new(alloc, medium, 2)?;
    let seats = seats.into_vec();
    Ok((bus, seats))
}

/// Holds each of two workers ahead of its first call until both have come, so that both run beside each other from there on.
#[derive(Drop)]
struct Both {
    came: AtomicCell<u64>,
    /// How often one waited for the other and gave up.
    gave_up: AtomicCell<u64>,
}

impl Gate for Both {
    fn before(&self, _system: SysId, worker: &Worker<'_>) {
        if worker.calls == 0 {
            self.came.fetch_add(1);
            self.gave_up.fetch_add(u64::from(!reaches(&self.came, 2)));
        }
    }

    fn after(&self, _system: SysId, _worker: &Worker<'_>) {}
}

#[test]
fn seats_that_wait_are_woken(rt: HostRuntime) -> Result<(), Fail> {
    let (bus, mut seats) = two_seats(rt.alloc())?;
    let steps = InStep {
        answered: [AtomicCell::new(0), AtomicCell::new(0)],
        gave_up: AtomicCell::new(0),
    };
    all_look_often(&rt, &bus, seats.as_mut_slice(), &steps);
    for answered in &steps.answered {
        assert_eq!(rt; answered.load(), CALLS);
    }
    assert_eq!(rt; steps.gave_up.load(), 0);
    Ok(())
}

#[test]
fn workers_that_sleep_are_woken(rt: HostRuntime) -> Result<(), Fail> {
    let mut deck = List::from_bytes(rt.alloc(), b"COMPLEX MODE(STAR) ENTRIES(1)\n")?;
    for name in [b"SYA", b"SYB"] {
        add_system(
            &mut deck,
            name,
            b"ENQ (A,B,E,SYSTEMS)\nDEQ (A,B,SYSTEMS)\n",
            PAIRS,
        )?;
    }
    let gate = Both {
        came: AtomicCell::new(0),
        gave_up: AtomicCell::new(0),
    };
    let (end, _) = ran(&rt, rt.alloc(), deck, &gate)?;
    assert_eq!(rt; end, RIGHT);
    assert_eq!(rt; gate.gave_up.load(), 0);
    Ok(())
}
