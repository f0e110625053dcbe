//! Decks made from a number, and the rounds of events that run them: a large run at one word. What a run does with them is
//! not known here.
#![tactic(auto)]

mod generated;
pub mod laws;
mod rounds;

pub use generated::deck;
pub use rounds::{SWITCH_ROUND, events_in, round_events};
