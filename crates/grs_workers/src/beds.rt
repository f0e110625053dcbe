//! Where workers sleep that have nothing to do, and how they wake each other. Each has a bed of its own. Behind a call that is entered
//! just those are called whom it concerns. No worker waits for a time: who sleeps was told that others are up, and the last one up
//! calls those that have yet to come to rest. A worker whose thread was made is up ahead of its first event, since the system lets it
//! begin; where one wasn't made nobody sleeps. No clause rests on it.
use crate::gate::Woken;
use grs_base::{MOST_SYSTEMS, NoMemory, SysId};
use grs_wire::masks::has_system;
use std::alloc::Global;
use std::hint;
use std::sync::Wait;
use std::sync::atomic::{AtomicU64, Ordering};

/// How often in a row a worker may be called where all others sleep, and have nothing to do. At the next time it gives up.
const MOST_IN_VAIN: u64 = 8;

/// How often a worker looks at its bed ahead of a sleep, which is some microseconds.
const LOOKS: u64 = 100;

/// A thread that waits for a bed to change looks at the low 32 bits of how it is.
const LOOKED_AT: u64 = 1 << 32;

/// The worker is up, and wasn't called since it looked last.
const UP: u64 = 0;

/// It was called, and has yet to look.
const CALLED: u64 = 1;

/// It sleeps, and has yet to come to rest.
const ASLEEP: u64 = 2;

/// It sleeps, and has come to rest.
const AT_REST: u64 = 3;

/// It was called since all others sleep, and has yet to look.
const ALONE: u64 = 4;

/// Nobody gave up, and no worker wants a thread, as far as is known.
const NOBODY: u64 = 0;

/// Somebody gave up, and no worker wanted a thread till then.
const SOMEBODY: u64 = 1;

/// Some worker wants a thread.
const WANTING: u64 = 2;

/// The beds of all workers.
#[derive(Drop)]
pub(crate) struct Beds {
    /// For each worker how it is.
    beds: Vec<AtomicU64>,
    /// How many workers are up, or have yet to begin.
    up: AtomicU64,
    /// Whether somebody gave up, or some worker has no thread: `NOBODY`, `SOMEBODY` or `WANTING`. But for the first of them nobody
    /// sleeps.
    left: AtomicU64,
    /// 0 until some worker made an event that the log of its system has.
    got_on: AtomicU64,
}

impl Beds {
    /// Before so many workers begin.
    pub(crate) fn new(alloc: Global, workers: usize) -> Result<Beds, NoMemory> {
        let mut beds = Vec::new(alloc);
        for _ in 0..workers {
            if beds.push(AtomicU64::new(UP)).is_err() {
                return Err(NoMemory);
            }
        }
        Ok(Beds {
            beds,
            up: AtomicU64::new(workers as u64),
            left: AtomicU64::new(NOBODY),
            got_on: AtomicU64::new(0),
        })
    }

    /// Whether nobody is to sleep any more.
    pub(crate) fn was_left(&self) -> bool {
        self.left.load(Ordering::SeqCst) != NOBODY
    }

    /// Whether some worker made an event.
    pub(crate) fn got_on(&self) -> bool {
        self.got_on.load(Ordering::SeqCst) != 0
    }

    /// Calls a worker, which is counted as up before it can see that. Who was called and has yet to look isn't called again.
    fn call(&self, bed: &AtomicU64) {
        let state = bed.load(Ordering::SeqCst);
        let heard = state == CALLED
            || state == UP
                && bed
                    .compare_exchange(UP, CALLED, Ordering::SeqCst, Ordering::SeqCst)
                    .is_ok();
        if heard {
            return;
        }
        self.up.fetch_add(1, Ordering::SeqCst);
        match bed.swap(CALLED, Ordering::SeqCst) {
            ASLEEP | AT_REST => bed.wake_one(),
            _ => {
                self.up.fetch_sub(1, Ordering::SeqCst);
            }
        }
    }

    /// Calls the workers of this set of systems.
    fn call_all(&self, set: u32) {
        if set == 0 {
            return;
        }
        for place in 0..MOST_SYSTEMS {
            match self.beds.get(place) {
                Some(bed) if has_system(set, SysId(place as u8)) => self.call(bed),
                Some(_) | None => {}
            }
        }
    }

    /// Calls those that sleep and have yet to come to rest: whether there are some. Who calls is counted as up meanwhile.
    fn call_those_asleep(&self) -> bool {
        let mut some = false;
        for bed in &self.beds {
            if bed.load(Ordering::SeqCst) != ASLEEP {
                continue;
            }
            self.up.fetch_add(1, Ordering::SeqCst);
            let sleeps = bed.compare_exchange(ASLEEP, ALONE, Ordering::SeqCst, Ordering::SeqCst);
            if sleeps.is_ok() {
                bed.wake_one();
                some = true;
            } else {
                self.up.fetch_sub(1, Ordering::SeqCst);
            }
        }
        some
    }

    /// Nobody sleeps from now on, for this reason or an earlier one.
    fn leave(&self, why: u64) {
        let _ = self
            .left
            .compare_exchange(NOBODY, why, Ordering::SeqCst, Ordering::SeqCst);
        self.call_all(u32::MAX);
    }

    /// No thread could be made for a worker, which begins only behind the one whose thread is to make its events. So nobody sleeps.
    pub(crate) fn want_a_thread(&self) {
        self.leave(WANTING);
    }

    /// A worker isn't up any more. Where nobody is, it calls those that have yet to come to rest, and is counted as up for as long;
    /// and again where all of them sleep once more by then. Where all have come to rest, and some weren't told that all have, nobody
    /// sleeps from then on.
    fn go_down<R: Wait>(&self, rt: &R) {
        for _ in rt.forever() {
            if self.up.fetch_sub(1, Ordering::SeqCst) != 1 {
                return;
            }
            self.up.fetch_add(1, Ordering::SeqCst);
            if !self.call_those_asleep() {
                self.leave(SOMEBODY);
                self.up.fetch_sub(1, Ordering::SeqCst);
                return;
            }
        }
    }

    /// Waits some microseconds, or until the worker of this bed was called.
    fn look(bed: &AtomicU64) {
        for _ in 0..LOOKS {
            if bed.load(Ordering::SeqCst) != UP {
                return;
            }
            hint::spin_loop();
        }
    }

    /// Lies in this bed until the worker is called.
    fn lie<R: Wait>(&self, rt: &R, bed: &AtomicU64, state: u64) {
        let lies = bed.compare_exchange(UP, state, Ordering::SeqCst, Ordering::SeqCst);
        if lies.is_err() {
            return;
        }
        self.go_down(rt);
        for _ in rt.forever() {
            if bed.load(Ordering::SeqCst) != state {
                return;
            }
            bed.park(rt, (state % LOOKED_AT) as u32);
        }
    }

    /// How a worker goes on, as nobody is to sleep any more: so, where it isn't for want of a thread.
    fn given_up(&self, other: Woken) -> Woken {
        if self.left.load(Ordering::SeqCst) == WANTING {
            Woken::Late
        } else {
            other
        }
    }

    /// Sleeps in this bed until the worker is called.
    fn sleep<R: Wait>(&self, rt: &R, bed: &AtomicU64, at_rest: bool) -> Woken {
        if self.was_left() {
            return self.given_up(Woken::Never);
        }
        Beds::look(bed);
        self.lie(rt, bed, if at_rest { AT_REST } else { ASLEEP });
        match bed.swap(UP, Ordering::SeqCst) {
            ALONE => Woken::Alone,
            _ if self.was_left() => self.given_up(Woken::Left),
            _ => Woken::Called,
        }
    }
}

/// A worker with its bed.
#[derive(Drop)]
pub(crate) struct Sleeper<'b> {
    beds: &'b Beds,
    place: usize,
    /// It asked once more ahead of its first sleep.
    begun: bool,
    /// How often it was called since all others slept, and has made no event since.
    in_vain: u64,
}

impl<'b> Sleeper<'b> {
    /// The worker of this place begins.
    pub(crate) fn new(beds: &'b Beds, place: usize) -> Sleeper<'b> {
        Sleeper {
            beds,
            place,
            begun: false,
            in_vain: 0,
        }
    }

    fn bed(&self) -> Option<&'b AtomicU64> {
        self.beds.beds.get(self.place)
    }

    /// Ahead of a turn, or a look into the inbox: whatever the worker was called for before, it sees.
    pub(crate) fn asks(&self) {
        if let Some(bed) = self.bed() {
            if bed.load(Ordering::SeqCst) != UP {
                bed.store(UP, Ordering::SeqCst);
            }
        }
    }

    /// Behind a call, which concerns this set of systems.
    pub(crate) fn tell(&self, set: u32) {
        self.beds.call_all(set);
    }

    /// The worker made an event that the log of its system has.
    pub(crate) fn got_on(&mut self) {
        self.in_vain = 0;
        if !self.beds.got_on() {
            self.beds.got_on.store(1, Ordering::SeqCst);
        }
    }

    /// Whether it asks once more ahead of its first sleep. As all begin at once, what it was told may be of the time before others did.
    pub(crate) fn asks_again(&mut self) -> bool {
        let first = !self.begun;
        self.begun = true;
        first
    }

    /// The worker has nothing to do, and sleeps. It has come to rest, or hasn't.
    pub(crate) fn sleep<R: Wait>(&mut self, rt: &R, at_rest: bool) -> Woken {
        let woken = match self.bed() {
            Some(bed) => self.beds.sleep(rt, bed, at_rest),
            None => Woken::Never,
        };
        if woken == Woken::Alone {
            self.in_vain = self.in_vain.saturating_add(1);
        }
        if self.in_vain > MOST_IN_VAIN {
            return Woken::Never;
        }
        woken
    }

    /// The worker is done. Where it gives up, nobody sleeps from then on.
    pub(crate) fn done<R: Wait>(&self, rt: &R, gives_up: bool) {
        if gives_up {
            self.beds.leave(SOMEBODY);
        }
        self.beds.go_down(rt);
    }
}
