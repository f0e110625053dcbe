//! A thread for each of several workers, as far as threads can be made. A worker is a value of a type parameter here, since a thread's
//! promise says of such a one what it is handed back as; what is done with it isn't known.
ghost use Rattle.std.specs.Prelude.{◌≡◌, All, vec_len, vec_capacity};
ghost use Rattle.std.specs.List.{AllZip};

use std::snapshot::Snapshot;
use std::sync::Wait;
use std::thread;
use std::thread::{Promise, Scope, Threads};

/// What is done with workers, with each on a thread of its own, or behind others.
pub(crate) trait Work<W> {
    /// What is asked of a worker.
    ghost asks: { Self → W → Type 0 };

    /// What it comes to.
    ghost gives: { Self → W → W → Type 0 };

    /// What is done with the worker of this place.
    fn work(&self, place: usize, worker: W) -> W
        requires { asks self.now worker }
        ensures { gives self.now worker result };

    /// No thread can be made for some worker, with which it is done behind others.
    fn want_a_thread(&self);

    /// Whether no more threads are wanted.
    fn was_left(&self) -> bool;
}

/// What is done with a worker as it was before. The promise is what it comes to.
#[derive(Drop)]
struct Before<T, W> {
    work: Snapshot<T>,
    worker: Snapshot<W>,
}

impl<T: Work<W>, W> Promise<W> for Before<T, W> {
    ghost kept_by = { λ p w. T.gives p.work.value p.worker.value w };
}

/// All of it, of the first worker on this thread. From the last worker on a thread is asked for, until one can't be made or no more are
/// wanted; whoever has none comes behind those ahead of it, on this thread.
fn in_threads<'s, E, R: Threads, W: Send + Drop + 's, T: Work<W> + Sync>(
    scope: &Scope<'s, E>,
    rt: &R,
    work: &'s T,
    mut workers: Vec<W>,
) -> Vec<W>
    requires { All (T.asks work.now) workers.items }
    ensures given { AllZip (T.gives work.now) workers.items result.items }
    ensures count { vec_len result ≡ vec_len workers }
    ensures room { vec_capacity result ≡ vec_capacity workers }
{
    let Some(worker) = workers.pop() else {
        return workers;
    };
    let place = workers.len();
    if place == 0 || work.was_left() {
        let mut others = in_threads(scope, rt, work, workers);
        others.push_reserved(work.work(place, worker));
        return others;
    }
    let before = Before {
        work: Snapshot::of(work),
        worker: Snapshot::of(&worker),
    };
    match scope.spawn_with(
        before,
        move || -> W
            requires { T.asks work.now worker }
            ensures { T.gives work.entry.now worker result }
        { work.work(place, worker) },
    ) {
        Ok(thread) => {
            let mut others = in_threads(scope, rt, work, workers);
            others.push_reserved(thread.join(rt));
            others
        }
        Err(refused) => {
            work.want_a_thread();
            let mut others = in_threads(scope, rt, work, workers);
            others.push_reserved((refused.value)());
            others
        }
    }
}

/// Does this work with all of these workers, each on a thread of its own as far as threads can be made, and waits for all.
pub(crate) fn at_once<R: Threads + Wait, W: Send + Drop, T: Work<W> + Sync>(
    rt: &R,
    work: &T,
    workers: Vec<W>,
) -> Vec<W>
    requires { All (T.asks work.now) workers.items }
    ensures { AllZip (T.gives work.now) workers.items result.items }
{
    thread::scope(
        thread::scope_env(),
        rt,
        move |scope| -> Vec<W>
            requires { All (T.asks work.now) workers.items }
            ensures { AllZip (T.gives work.entry.now) workers.items result.items }
        { in_threads(scope, rt, work, workers) },
    )
}
