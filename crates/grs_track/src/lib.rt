//! What may stand next behind a history, task by task: of each task as much of the history is kept as says what it
//! asks next. Whatever stands next is one of few known entries, so nothing here reads a history or a report.
#![tactic(auto)]

mod cursor;
mod free;
mod kept;
mod laws;
mod next;
mod onward;
mod removal;
mod script;
mod tracks;
mod walk;

pub use laws::{begins_by_tracks, longer_by_tracks, next_is_own, stands_by_tracks};
pub use tracks::Tracks;
