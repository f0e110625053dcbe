//! The tasks of a system in star mode, as the manager of a lock entry sees them from afar: what the answer to a task's
//! request, and control that it got, do to the task. Nothing here knows the lists, nor how mail comes to the system.
#![tactic(auto)]

mod answers;
mod apart;
mod client;
pub mod laws;
mod owes;

pub use client::{on_mail, tell_answer_ranked};
pub use owes::Owes;
