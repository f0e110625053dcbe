//! Tests of the library's calls that no deck of the program reaches, and of streams of which some calls fail. They
//! stand together in one crate above all others, since a crate with a test is proved twice; here is nothing else.
#![tactic(auto)]

#[cfg(test)]
mod chains;
#[cfg(test)]
mod commands;
#[cfg(test)]
mod copies;
#[cfg(test)]
mod gathering;
#[cfg(test)]
mod lists;
#[cfg(test)]
mod looks;
#[cfg(test)]
mod manager;
#[cfg(test)]
mod medium;
#[cfg(test)]
mod merging;
#[cfg(test)]
mod queues;
#[cfg(test)]
mod readers;
#[cfg(test)]
mod tables;
