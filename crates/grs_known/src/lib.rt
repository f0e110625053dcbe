//! What a system knows of its tasks, in any mode, and how a task stands by its past, by laws. There is nothing to run,
//! and no program is known here.
#![tactic(auto)]

pub mod laws;
