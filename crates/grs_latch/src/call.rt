//! Calls of latches. The name of a set has any bytes here; what reads calls says which it may have.
use grs_base::{Ctl, List};

/// A call of latches, each of whose sets is named.
#[derive(Drop)]
pub enum LatchCall {
    /// Makes a set of so many latches, 1 to 1,024.
    Crt {
        set: List<u8>,
        count: u32,
    },
    /// Asks for a latch. A request with `sync` is queued where the latch isn't granted, another isn't.
    Obt {
        set: List<u8>,
        latch: u32,
        requestor: u16,
        ctl: Ctl,
        sync: bool,
    },
    /// Gives a latch up.
    Rel {
        set: List<u8>,
        latch: u32,
        requestor: u16,
    },
    /// Takes every request of a requestor out of a set.
    Prg {
        set: List<u8>,
        requestor: u16,
    },
}
