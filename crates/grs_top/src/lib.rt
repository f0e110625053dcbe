//! The commands from bytes to bytes: a deck is read, run and reported. Each says by its status how it
//! ended, and knows nothing of where its bytes come from.
#![tactic(auto)]

mod beside;
mod command;
mod due;
mod ends;
mod fault_line;
mod generate;
pub mod laws;
mod left_out;
mod lists;
mod seen;
mod status;
mod stop;
mod words;

pub use beside::seen_of;
pub use command::{
    analyze_command, audit_command, grs, latch_command, lists_command, notices_command,
    replay_command, run_command, stop_command,
};
pub use generate::gen_command;
pub use seen::seen_by_replay;
pub use status::Status;
pub use stop::Stop;
pub use words::{Command, Invocation};
