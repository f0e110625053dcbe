//! Where a text comes from and where it goes: sources and sinks that may fail, and the two loops that
//! read a source to its end and write a text whole. It knows nothing of what the bytes say.
#![tactic(auto)]

mod fault;
mod memory;
mod sink;
mod source;
mod standard;
mod sure;
mod whole;

pub use fault::{Failed, ReadFailure};
pub use memory::{MemSink, MemSource};
pub use sink::Sink;
pub use source::Source;
pub use standard::{StdSink, StdSource};
pub use sure::{SureSink, SureSource};
pub use whole::{read_all, write_all};
