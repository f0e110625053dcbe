//! Which resource a request is for. The three name lists of a deck are searched in a fixed order; what the
//! request asks, and who has the resource, isn't known here. (z/OS MVS Planning: Global Resource
//! Serialization, "Selecting the data"; that a deck's lists are searched in just this order is this project's
//! own.)
#![tactic(auto)]

mod decide;
mod listed;
mod resolver;

pub use decide::{Resolved, Unresolved, resolve, resolve_kind};
pub use resolver::Resolver;
