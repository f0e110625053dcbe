//! Queues whose elements are linked.
#![tactic(auto)]

mod elements;
mod finding;
mod heads;
mod linked;
mod rings;
mod tasks;

pub use linked::LinkedQueues;
