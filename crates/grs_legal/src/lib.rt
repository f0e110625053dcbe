//! What a task asks next after a history, and which histories are legal. It knows of nothing but a deck
//! and the plain lists.
#![tactic(auto)]

mod meaning;

pub use meaning::{Display, Meaning, meaning_of};
