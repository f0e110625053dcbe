//! The tasks of a deck in its order, each with its place among those of its system. What they do is not known here.
#![tactic(auto)]

mod tasks;

pub use tasks::{tasks_of, tasks_of_system};
