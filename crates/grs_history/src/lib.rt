//! Requests in order, answered by one plain list for each resource, and the lists that a history leaves; and the events of
//! systems that ran beside each other, in one order. Nothing here knows of systems at work, messages or modes.
#![tactic(auto)]

mod order;
mod queues;
mod replies;

pub use order::{Merged, merge, merge_steps};
pub use queues::{carry_out, queues_after};
pub use replies::answers;
