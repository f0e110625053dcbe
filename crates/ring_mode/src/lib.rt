//! The ring's part of a system: the entries of the authority message are processed one by one, on the table
//! of the Systems resources, and the tasks of the system are told what concerns them. It knows nothing of how
//! entries come to the system, nor of a system's own resources.
#![tactic(auto)]

mod ring;
mod same;

pub use ring::on_request;
