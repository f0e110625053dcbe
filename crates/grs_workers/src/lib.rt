//! Systems that run beside each other, a thread for each: a worker has a system and its seat at the bus, and makes the
//! events that have something to do. What a run comes to isn't known here.
#![tactic(auto)]

mod agenda;
mod beds;
mod crew;
mod gate;
mod rounds;
mod run;
mod stretch;
mod threads;
mod worker;

pub use crew::workers_of;
pub use gate::{FreeGate, Gate, Woken};
pub use rounds::round;
pub use run::{Ran, run_workers};
pub use worker::Worker;
