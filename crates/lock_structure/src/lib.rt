//! The lock structure of star mode: a word for each lock entry, which says the systems that have interest in it
//! and the one that manages it. This crate knows nothing of mail, of the lists that a manager keeps, or of flags.
#![tactic(auto)]

pub mod laws;
mod least;
pub mod purge_laws;
pub mod threads;
mod word;
mod words;

pub use least::or_this;
pub use word::Route;
pub use words::Words;
