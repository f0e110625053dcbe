//! The threads that sleep until the word is given back, and how they are woken. How many sleep nobody else sees, so that it can't be
//! asked for by a seat that has the word.
ghost use Rattle.std.specs.Prelude.{◌≡◌, false};

use crate::bus::{Bus, Place};
use std::sync::Wait;
use std::sync::atomic::{AtomicU64, Ordering};

/// A thread that waits for the word to change looks at its low 32 bits.
const LOOKED_AT: u64 = 1 << 32;

/// How many threads sleep until the word is given back, or are about to.
#[derive(Drop)]
pub struct Sleepers {
    count: AtomicU64,
}

impl Sleepers {
    /// None.
    pub fn new() -> Sleepers {
        Sleepers {
            count: AtomicU64::new(0),
        }
    }
}

impl Bus {
    // Sleeps until the word may have changed. Whoever changes it either sees that somebody sleeps, or has changed it before
    // this thread could fall asleep.
    pub(crate) fn sleep<R: Wait>(&self, rt: &R, word: u64) {
        self.sleepers.count.fetch_add(1, Ordering::SeqCst);
        self.table.shared.park(rt, 0, (word % LOOKED_AT) as u32);
        self.sleepers.count.fetch_sub(1, Ordering::SeqCst);
    }

    // Wakes one thread that sleeps, once this seat has given the word back: who asked sooner would miss a thread that goes to
    // sleep in between. Where none sleeps the system isn't asked, which costs as much as a short call.
    pub(crate) fn wake(&self, place: &Place)
        requires { place.now.me.0.holding ≡ false }
    {
        if self.sleepers.count.load(Ordering::SeqCst) > 0 {
            self.table.shared.wake_one(0);
        }
    }
}
