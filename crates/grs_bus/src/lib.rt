//! The shared bus: the seats of several threads call one medium in turn, and a journal keeps the calls. What is
//! called, and why, is not known here: a seat hands in a call of the medium and is told the reply.
#![tactic(auto)]

mod bus;
mod calls;
mod ends;
pub mod laws;
mod sleepers;
mod slot;
mod steps;
pub mod threads;
mod view;

pub use bus::{Bus, Seat};
