//! A stretch: all workers at once, each with as many events as it finds to do.
ghost use Rattle.std.specs.Prelude.{◌≡◌, All, IfOk, OnOk, length};
ghost use Rattle.grs_workers.specs.Stands.{stand, IsOn, Agrees};
ghost use Rattle.grs_workers.specs.Rounds.{Grew, Each, HasMoved};

use crate::agenda::Agenda;
use crate::beds::{Beds, Sleeper};
use crate::gate::{Gate, Woken};
use crate::rounds::{act, all_out};
use crate::threads::{Work, at_once};
use crate::worker::Worker;
use grs_base::{NoMemory, SysId};
use grs_bus::Bus;
use grs_wire::Choice;
use std::alloc::Global;
use std::sync::Wait;
use std::thread::Threads;

/// How a worker goes on.
#[derive(Clone, Copy)]
enum Goes {
    /// With another event.
    On,
    /// It was answered Over or Removed.
    Out,
    /// Nobody is to sleep any more, or it was woken again and again, and had nothing to do.
    Away,
}

/// The next event, if there is something to do.
fn event_if<R: Wait, G: Gate>(
    rt: &R,
    bus: &Bus,
    worker: &mut Worker<'_>,
    gate: &G,
    sleeper: &Sleeper<'_>,
) -> Result<Option<Goes>, NoMemory>
    requires on { IsOn bus.now (stand worker.old) }
    requires agrees { Agrees (stand worker.old) }
    ensures grew { OnOk result (Grew (stand worker.old) (stand worker.new)) }
    ensures on { OnOk result (IsOn bus.now (stand worker.new)) }
    ensures agrees { OnOk result (Agrees (stand worker.new)) }
{
    let Some((choice, prepared)) = worker.agenda.next(&mut worker.node)? else {
        return Ok(None);
    };
    if matches!(choice, Choice::Turn | Choice::Take) {
        sleeper.asks();
    }
    if act(rt, bus, worker, gate, Some(sleeper), choice, prepared)? {
        Ok(Some(Goes::Out))
    } else {
        Ok(Some(Goes::On))
    }
}

/// There is nothing to do: the worker of this system asks once more, where it has yet to sleep, and else it sleeps until it is called.
/// The gate is told how that ended.
fn rest<R: Wait, G: Gate>(
    rt: &R,
    system: SysId,
    agenda: &mut Agenda,
    gate: &G,
    sleeper: &mut Sleeper<'_>,
) -> Goes {
    if sleeper.asks_again() {
        agenda.ask();
        return Goes::On;
    }
    let woken = sleeper.sleep(rt, agenda.at_rest());
    gate.woken(system, woken);
    agenda.wake(woken == Woken::Alone);
    match woken {
        Woken::Called | Woken::Alone | Woken::Left => Goes::On,
        Woken::Late | Woken::Never => Goes::Away,
    }
}

/// The next event, or where there is nothing to do a sleep.
fn step<R: Wait, G: Gate>(
    rt: &R,
    bus: &Bus,
    worker: &mut Worker<'_>,
    gate: &G,
    sleeper: &mut Sleeper<'_>,
) -> Result<Goes, NoMemory>
    requires on { IsOn bus.now (stand worker.old) }
    requires agrees { Agrees (stand worker.old) }
    ensures grew { OnOk result (Grew (stand worker.old) (stand worker.new)) }
    ensures on { OnOk result (IsOn bus.now (stand worker.new)) }
    ensures agrees { OnOk result (Agrees (stand worker.new)) }
{
    let steps = worker.node.log().len();
    let system = worker.seat.system();
    match event_if(rt, bus, worker, gate, sleeper)? {
        Some(goes) => {
            if worker.node.log().len() != steps {
                sleeper.got_on();
            }
            Ok(goes)
        }
        None => Ok(rest(rt, system, &mut worker.agenda, gate, sleeper)),
    }
}

/// Events, until one is answered Over or Removed, or the worker gives up: whether one was.
fn events_in_stretch<R: Wait, G: Gate>(
    rt: &R,
    bus: &Bus,
    worker: &mut Worker<'_>,
    gate: &G,
    sleeper: &mut Sleeper<'_>,
) -> Result<bool, NoMemory>
    requires on { IsOn bus.now (stand worker.old) }
    requires agrees { Agrees (stand worker.old) }
    ensures grew { OnOk result (Grew (stand worker.old) (stand worker.new)) }
    ensures on { OnOk result (IsOn bus.now (stand worker.new)) }
    ensures agrees { OnOk result (Agrees (stand worker.new)) }
{
    for _ in rt.forever() {
        match step(rt, bus, worker, gate, sleeper)? {
            Goes::On => {}
            Goes::Out => return Ok(true),
            Goes::Away => return Ok(false),
        }
    }
    unreachable!()
}

/// A worker's stretch. It keeps how it went.
fn work_on<'d, R: Wait, G: Gate>(
    rt: &R,
    bus: &Bus,
    mut worker: Worker<'d>,
    gate: &G,
    beds: &Beds,
    place: usize,
) -> Worker<'d>
    requires on { IsOn bus.now (stand worker) }
    requires agrees { Agrees (stand worker) }
    ensures { HasMoved bus.now worker.entry result }
{
    let mut sleeper = Sleeper::new(beds, place);
    worker.agenda.wake(false);
    worker.outcome = events_in_stretch(rt, bus, &mut worker, gate, &mut sleeper);
    sleeper.done(rt, !matches!(worker.outcome, Ok(true)));
    worker
}

/// Where workers make a stretch.
#[derive(Drop)]
struct Site<'a, R, G> {
    rt: &'a R,
    bus: &'a Bus,
    gate: &'a G,
    beds: &'a Beds,
}

impl<'a, 'd, R: Wait, G: Gate> Work<Worker<'d>> for Site<'a, R, G> {
    ghost use Rattle.grs_workers.specs.Stands.{stand, IsOn, Agrees};
    ghost use Rattle.grs_workers.specs.Rounds.{HasMoved};

    ghost asks = { λ s w. IsOn s.bus.now (stand w) × Agrees (stand w) };

    ghost gives = { λ s v w. HasMoved s.bus.now v w };

    fn work(&self, place: usize, worker: Worker<'d>) -> Worker<'d> {
        work_on(self.rt, self.bus, worker, self.gate, self.beds, place)
    }

    fn want_a_thread(&self) {
        self.beds.want_a_thread();
    }

    fn was_left(&self) -> bool {
        self.beds.was_left()
    }
}

/// A stretch, for which it waits: all workers at once, each with as many events as it finds to do, until it is answered Over or Removed,
/// or gives up, as where there are no threads for all; and whether a round is to follow, since each was answered so, or nobody got on.
/// After NoMemory the run is to be given up.
pub(crate) fn stretch<'d, R: Threads + Wait + Sync, G: Gate + Sync>(
    rt: &R,
    alloc: Global,
    bus: &Bus,
    workers: Vec<Worker<'d>>,
    gate: &G,
) -> Result<(Vec<Worker<'d>>, bool), NoMemory>
    requires on { All (λ w. IsOn bus.now (stand w)) workers.items }
    requires agree { All (λ w. Agrees (stand w)) workers.items }
    ensures grew { IfOk result (λ x. Each (λ v w. Grew (stand v) (stand w)) workers.entry.items x.0.items) }
    ensures count { IfOk result (λ x. length x.0.items ≡ length workers.entry.items) }
    ensures on { IfOk result (λ x. All (λ w. IsOn bus.now (stand w)) x.0.items) }
    ensures agree { IfOk result (λ x. All (λ w. Agrees (stand w)) x.0.items) }
{
    let beds = Beds::new(alloc, workers.len())?;
    let site = Site {
        rt,
        bus,
        gate,
        beds: &beds,
    };
    let moved = at_once(rt, &site, workers);
    let all = all_out(moved.as_slice())?;
    Ok((moved, all || !beds.got_on()))
}
