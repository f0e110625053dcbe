//! The authority message of a ring. It stands at one system at a time; at its turn that system gets the entries
//! that it has yet to process, and puts its own in. This crate knows nothing of inboxes, lock words or flags
//! beyond what a call hands in.
#![tactic(auto)]

mod entries;
mod order;
mod rsa;
pub mod threads;

pub use rsa::Rsa;
