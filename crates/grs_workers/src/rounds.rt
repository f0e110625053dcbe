//! Rounds by fork and join: all workers at once, each with as many events as a round has.
ghost use Rattle.std.specs.Prelude.{◌≡◌, All, IfOk, IfErr, OnOk, OnErr};
ghost use Rattle.std.specs.List.{list_all};
ghost use Rattle.grs_node.specs.declared.prepared.Prepared.TheVariants.{Call as Calls};
ghost use Rattle.grs_wire.specs.declared.medium.Call.{Call as MediumCall};
ghost use Rattle.grs_workers.specs.Stands.{stand, IsOn, Agrees, Deed, is_last, is_last_reply, IsDone, MayDo, IsGivenUp};
ghost use Rattle.grs_workers.specs.Rounds.{Went, Grew, Each, HasWorked, is_out};

use crate::beds::Sleeper;
use crate::gate::Gate;
use crate::worker::Worker;
use grs_base::{MOST_SYSTEMS, NoMemory};
use grs_bus::Bus;
use grs_node::Prepared;
use grs_wire::{Call, Choice, Reply};
use std::sync::Wait;
use std::thread;
use std::thread::Threads;

/// The most events that a worker makes in a round.
const MOST_EVENTS: u32 = 64;

/// Whether a reply ends the round of its worker.
fn is_last_reply(reply: &Reply) -> bool
    ensures { result ≡ is_last_reply reply.now }
{
    matches!(reply, Reply::Over | Reply::Removed)
}

/// An event with this call: whether its reply ends the round. Whom it concerns is woken at once, where workers sleep. Once the bus has
/// answered, memory may be wanting only for an entered reply for which the system takes some though there is room.
fn make_call<R: Wait, G: Gate>(
    rt: &R,
    bus: &Bus,
    worker: &mut Worker<'_>,
    gate: &G,
    sleeper: Option<&Sleeper<'_>>,
    choice: Choice,
    call: Call,
) -> Result<bool, NoMemory>
    requires on { IsOn bus.now (stand worker.old) }
    requires agrees { Agrees (stand worker.old) }
    requires may_do { MayDo worker.old.node (choice, Calls call) }
    ensures done { IfOk result (λ out. (d : Deed) × IsDone (stand worker.old) d (stand worker.new) × (is_last d ≡ out)) }
    ensures on { OnOk result (IsOn bus.now (stand worker.new)) }
    ensures agrees { OnOk result (Agrees (stand worker.new)) }
    ensures sure { OnErr result (IsGivenUp (stand worker.old) call worker.new.seat) }
{
    let system = worker.seat.system();
    gate.before(system, worker);
    let (reply, entered) = bus.call(rt, &mut worker.seat, call)?;
    if let Some(sleeper) = sleeper {
        sleeper.tell(worker.seat.concerned());
    }
    worker.agenda.replied(&reply);
    let out = is_last_reply(&reply);
    worker.node.finish(&choice, Some((reply, entered)))?;
    worker.calls = worker.calls.saturating_add(1);
    gate.after(system, worker);
    Ok(out)
}

/// An event: whether its reply ends the round.
pub(crate) fn act<R: Wait, G: Gate>(
    rt: &R,
    bus: &Bus,
    worker: &mut Worker<'_>,
    gate: &G,
    sleeper: Option<&Sleeper<'_>>,
    choice: Choice,
    prepared: Prepared,
) -> Result<bool, NoMemory>
    requires on { IsOn bus.now (stand worker.old) }
    requires agrees { Agrees (stand worker.old) }
    requires may_do { MayDo worker.old.node (choice, prepared) }
    ensures done { IfOk result (λ out. (d : Deed) × IsDone (stand worker.old) d (stand worker.new) × (is_last d ≡ out)) }
    ensures on { OnOk result (IsOn bus.now (stand worker.new)) }
    ensures agrees { OnOk result (Agrees (stand worker.new)) }
    ensures sure { OnErr result ((call : MediumCall) → prepared ≡ Calls call → IsGivenUp (stand worker.old) call worker.new.seat) }
{
    match prepared {
        Prepared::Quiet => {
            worker.node.finish(&choice, None)?;
            Ok(false)
        }
        Prepared::Call(call) => make_call(rt, bus, worker, gate, sleeper, choice, call),
        Prepared::Nothing => unreachable!(),
    }
}

/// The next event that has something to do: whether its reply ends the round.
fn event<R: Wait, G: Gate>(
    rt: &R,
    bus: &Bus,
    worker: &mut Worker<'_>,
    gate: &G,
) -> Result<bool, NoMemory>
    requires on { IsOn bus.now (stand worker.old) }
    requires agrees { Agrees (stand worker.old) }
    ensures done { IfOk result (λ out. (d : Deed) × IsDone (stand worker.old) d (stand worker.new) × (is_last d ≡ out)) }
    ensures on { OnOk result (IsOn bus.now (stand worker.new)) }
    ensures agrees { OnOk result (Agrees (stand worker.new)) }
{
    let (choice, prepared) = worker.agenda.pick(&mut worker.node)?;
    act(rt, bus, worker, gate, None, choice, prepared)
}

/// The events of a round: whether one was answered Over or Removed. Behind that the worker makes none.
fn events<R: Wait, G: Gate>(
    rt: &R,
    bus: &Bus,
    worker: &mut Worker<'_>,
    gate: &G,
) -> Result<bool, NoMemory>
    requires on { IsOn bus.now (stand worker.old) }
    requires agrees { Agrees (stand worker.old) }
    ensures went { IfOk result (λ out. Went (stand worker.old) out (stand worker.new)) }
    ensures on { OnOk result (IsOn bus.now (stand worker.new)) }
    ensures agrees { OnOk result (Agrees (stand worker.new)) }
{
    for made in 0..MOST_EVENTS {
        if event(rt, bus, worker, gate)? {
            return Ok(true);
        }
    }
    Ok(false)
}

/// A worker's round. It keeps how the round went.
fn work<R: Wait, G: Gate>(rt: &R, bus: &Bus, worker: &mut Worker<'_>, gate: &G)
    requires on { IsOn bus.now (stand worker.old) }
    requires agrees { Agrees (stand worker.old) }
    ensures { HasWorked bus.now worker.old worker.new }
{
    worker.outcome = events(rt, bus, worker, gate);
}

/// All workers at once.
fn all_work<R: Threads + Wait + Sync, G: Gate + Sync>(
    rt: &R,
    bus: &Bus,
    workers: &mut [Worker<'_>],
    gate: &G,
)
    requires on { All (λ w. IsOn bus.now (stand w)) workers.old }
    requires agree { All (λ w. Agrees (stand w)) workers.old }
    ensures { Each (HasWorked bus.now) workers.old workers.new }
{
    thread::for_each_mut(
        rt,
        workers,
        MOST_SYSTEMS,
        &|_, worker| work(rt, bus, worker, gate),
    );
}

/// Whether each worker was answered Over or Removed in its last round or stretch.
pub(crate) fn all_out(workers: &[Worker<'_>]) -> Result<bool, NoMemory>
    ensures out { IfOk result (λ all. all ≡ list_all (λ w. is_out w.outcome) workers.now) }
    ensures ok { OnOk result (All (λ w. IfErr w.outcome (λ _. ⊥)) workers.now) }
{
    let mut all = true;
    for worker in workers {
        match &worker.outcome {
            Ok(out) => all = all && *out,
            Err(_) => return Err(NoMemory),
        }
    }
    Ok(all)
}

/// A round, for which it waits: all workers at once, each with 64 events, or with those before it is answered Over or Removed, and
/// that one. True exactly where each worker was answered Over or Removed. Where it is false, some worker wasn't, and its takes and the
/// quiet steps of its log are 64 more than before. After NoMemory the run is to be given up.
pub fn round<R: Threads + Wait + Sync, G: Gate + Sync>(
    rt: &R,
    bus: &Bus,
    workers: &mut [Worker<'_>],
    gate: &G,
) -> Result<bool, NoMemory>
    requires on { All (λ w. IsOn bus.now (stand w)) workers.old }
    requires agree { All (λ w. Agrees (stand w)) workers.old }
    ensures out { IfOk result (λ all. all ≡ list_all (λ w. is_out w.outcome) workers.new) }
    ensures went { OnOk result (Each (λ v w. Went (stand v) (is_out w.outcome) (stand w)) workers.old workers.new) }
    ensures grew { OnOk result (Each (λ v w. Grew (stand v) (stand w)) workers.old workers.new) }
    ensures on { OnOk result (All (λ w. IsOn bus.now (stand w)) workers.new) }
    ensures agree { OnOk result (All (λ w. Agrees (stand w)) workers.new) }
{
    all_work(rt, bus, workers, gate);
    let all = all_out(workers)?;
    Ok(all)
}
