//! Plain data that passes between the parts: what a deck says, the events of a run, requests and
//! their answers, the history, and what is told.
#![tactic(auto)]

mod deck;
mod gather;
mod history;
pub mod laws;
mod log;
pub mod masks;
mod medium;
mod request;
mod seen;
mod told;

pub use deck::{Choice, Deck, Desk, Event, JobDef, Name, Order, SystemDef, TaskDef};
pub use gather::{Moved, PartRec};
pub use history::HistEntry;
pub use log::{NodeLog, StepDone};
pub use medium::{Act, Call, JEntry, Mail, Reply, RingBody, RingEntry};
pub use request::{Answer, Fixed, Req, Want, is_for_all, res_of};
pub use seen::{Names, Seen, TaskEnd};
pub use told::{Said, Told, ToldLine, Verb};
