//! The removal of a system at another one: the elements of its tasks leave every list of a table, and the tasks that got
//! control by it are told; and where it managed a lock entry, what the others have on record is gathered. It knows nothing
//! of who removes whom, nor of how a removal comes to the system.
#![tactic(auto)]

mod gather;
mod gathers;
pub mod laws;
mod part;
mod removal;

pub use gather::{gathered, merge_parts, part_of_entry};
pub use gathers::{Gathering, Gathers, SentPart};
pub use part::part_of;
pub use removal::{remove, tell_each};
