//! The world: the medium and the systems that share it, and the run of a list of events, with what is fixed and
//! told. It stands on what a deck says, and knows nothing of how decks are written or runs are printed.
#![tactic(auto)]

mod chosen;
pub mod laws;
mod stops;
mod summary;
mod world;

pub use stops::stopped;
pub use summary::{task_end, units_of};
pub use world::{RunLog, World, replay};
