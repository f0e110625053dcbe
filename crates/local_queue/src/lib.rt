//! The lists of the Step and System resources of one system: its requests for them are answered at once. Nothing
//! here knows of other systems.
#![tactic(auto)]

mod local;

pub use local::Local;
