//! Latches: what programs of one address space use in place of ENQ and DEQ. A latch is a list of requests in order of
//! arrival, decided by the tables of ENQ and DEQ; a set has up to 1,024 of them, and there are up to 64 sets, each with its
//! name. Nothing here reads or prints a text.
//! (z/OS MVS Programming: Authorized Assembler Services Reference, "Latch services".)
#![tactic(auto)]

mod call;
mod codes;
mod laws;
mod parts;
mod queue;
mod reply;
mod rows;
mod set;
mod sets;

pub use call::LatchCall;
pub use laws::{
    calls_go_on, grants_are_new_owners, latches_are_resources, latches_have_lists_of_resources,
};
pub use reply::{Grant, LatchReply, LatchRow};
pub use set::MOST_LATCHES;
pub use sets::{Latches, MOST_SETS, name_of};
