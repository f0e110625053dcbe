//! The text that calls of latches are answered by: what each call comes to, and which latches have requests at the end. It
//! knows the words of the text, and nothing of how calls are read or carried out.
#![tactic(auto)]

mod calls;
mod lines;
mod rows;

pub use calls::latch_text;
