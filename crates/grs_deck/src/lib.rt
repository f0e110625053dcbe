//! Reads a deck. Statements are judged one by one against the deck so far, and the first fault ends
//! the reading.
#![tactic(auto)]

mod defaults;
mod grow;
mod judge;
mod laws;
mod places;
mod read;

pub use grs_wire::{Choice, Deck, Desk, Event, JobDef, Name, Order, SystemDef, TaskDef};
pub use laws::{event_lines, one_deck};
pub use places::{system_at, task_in};
pub use read::read_deck;
