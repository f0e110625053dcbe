//! What a monitor is told of contention along a history: where somebody begins to wait for a resource, where the list
//! of one for which somebody waits changes, and where nobody waits any more. Where a history comes from is not known
//! here. (z/OS MVS Programming: Authorized Assembler Services Guide, event notification facility, signal 51.)
#![tactic(auto)]

mod compare;
pub mod laws;
mod notice;
mod text;
mod watch;

pub use notice::{Noted, Notice, What};
pub use text::notices_text;
pub use watch::{Watch, notices_of};
