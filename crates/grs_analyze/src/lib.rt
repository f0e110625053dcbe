//! Who keeps whom from control by the lists of a complex, and whether tasks wait for one another in a circle. How the
//! lists came about is not known here.
#![tactic(auto)]

mod analysis;
mod blocked;
mod flags;
mod front;
mod greatest;
pub mod laws;
mod numbered;
mod text;
mod walk;

pub use analysis::{Analysis, Blocked, analyze};
pub use text::analysis_text;
