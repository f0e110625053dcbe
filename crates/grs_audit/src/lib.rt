//! Judges a report that anybody wrote: whether its history is one of a deck, and if not, which line can't stand. Behind a
//! legal history each task has at most one next entry, so nothing here reads a line past the name of who asks: what may
//! stand next is printed and compared.
#![tactic(auto)]

mod asker;
mod compare;
mod halves;
mod head;
mod judge;
mod laws;
mod parts;
mod text;
mod verdict;
mod walk;

pub use halves::{Halves, MOST_AUDITED_BYTES, halves_of};
pub use judge::audit;
pub use laws::{next_line_is_said, one_verdict, reports_are_yes};
pub use text::verdict_text;
pub use verdict::Verdict;
