//! Who gets control of a resource when the elements of a removed system leave its list. Nothing here changes anything, and
//! nothing knows who keeps the list.
#![tactic(auto)]

pub mod laws;
mod owners;

pub use owners::freed;
