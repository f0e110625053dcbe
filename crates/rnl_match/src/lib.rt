//! Which entry of a name list matches a resource's names, and an index over a list that finds it. An entry is
//! compared by its own form alone; what a match does to a request is not known here. (z/OS MVS Planning: Global
//! Resource Serialization, "Resource name lists".)
#![tactic(auto)]

mod entry;
mod index;
mod pattern;

pub use entry::{find, matches, matches_counted};
pub use index::RnlIndex;
pub use pattern::matches_pattern;
