//! The medium that the systems of a complex share: the authority message, the lock words, an inbox for each
//! system, the removed systems and the flags of rest. A call of it is one atomic step; nothing here knows of
//! resources, tasks or decks.
#![tactic(auto)]

mod inboxes;
pub mod laws;
mod medium;
mod notices;
mod sets;
pub mod threads;

pub use medium::{Medium, TurnRefusal};
