//! Reads calls of latches from a text, one a line. It knows the forms of calls and how many there may be, and carries
//! none out.
#![tactic(auto)]

mod form;
mod judge;
mod laws;
mod read;

pub use laws::one_list_of_calls;
pub use read::read_calls;
