//! The report of a run as text: schedule, history, what was told, and how lists, units and lock words
//! stand at the end. It prints what it is given, and knows nothing of how a run comes about.
#![tactic(auto)]

mod ends;
mod history;
mod schedule;
mod shelves;
mod spelled;
mod state;
mod told;
mod told_line;
mod whole;

pub use ends::all_ended;
pub use history::put_entry;
pub use whole::report;
