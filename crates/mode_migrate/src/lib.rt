//! The change from ring mode to star mode: which lock words a table of resources leads to, and which entries a system
//! then manages and has interest in, with a rank for each element. It changes no list, and knows nothing of tasks, of
//! the message or of mail. After the change that z/OS MVS Planning: Global Resource Serialization describes for SETGRS
//! MODE=STAR; how entries get their managers and elements their ranks is this project's own.
#![tactic(auto)]

mod groups;
pub mod laws;
mod roles;
mod words;

pub use roles::{Roles, roles_of};
pub use words::words_of;
