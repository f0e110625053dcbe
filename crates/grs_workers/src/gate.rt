//! What looks on while workers make their calls, and is told how their sleeps end.
use crate::worker::Worker;
use grs_base::SysId;

/// How a worker's sleep ended, or why it gives a stretch up in place of one. Where each worker has a thread, and whoever has something
/// to do is called, none is left, late or gives up.
#[derive(Clone, Copy, PartialEq, Eq)]
pub enum Woken {
    /// It was called by whoever made a call that concerns it.
    Called,
    /// It was called since all others slept, and had yet to come to rest.
    Alone,
    /// It was called since somebody gave up, or since all had come to rest and some weren't told so.
    Left,
    /// It gives up, since some worker has no thread of its own, and begins late, behind others.
    Late,
    /// It gives up, since others did, or since it was called again and again as all others slept, and had nothing to do.
    Never,
}

/// Who is lent a worker ahead of each call of the bus, before the bus is waited for, and once the call was answered and its
/// system was finished with the reply. So `calls` is one less than the call's number ahead of it, and its number behind. It is told
/// how each sleep of a worker ended.
pub trait Gate {
    ghost use Rattle.std.specs.Prelude.{◌≡◌};
    ghost use Rattle.grs_workers.specs.Stands.{Agrees, stand};

    fn before(&self, system: SysId, worker: &Worker<'_>)
        requires agrees { Agrees (stand worker.now) }
        requires system { worker.now.seat.system ≡ system };

    fn after(&self, system: SysId, worker: &Worker<'_>)
        requires agrees { Agrees (stand worker.now) }
        requires system { worker.now.seat.system ≡ system };

    fn woken(&self, _system: SysId, _how: Woken) {}
}

/// The gate that lets everybody pass.
#[derive(Clone, Copy, Drop)]
pub struct FreeGate;

impl Gate for FreeGate {
    fn before(&self, _system: SysId, _worker: &Worker<'_>) {}

    fn after(&self, _system: SysId, _worker: &Worker<'_>) {}
}
