//! Tests of systems that run as threads beside each other, of what no deck can show. They stand in a crate of their own, as a crate
//! with a test is proved twice; here is nothing else.
#![tactic(auto)]

#[cfg(test)]
mod beside;
#[cfg(test)]
mod calls;
#[cfg(test)]
mod desk;
#[cfg(test)]
mod held;
#[cfg(test)]
mod hold;
#[cfg(test)]
mod long;
#[cfg(test)]
mod mails;
#[cfg(test)]
mod progress;
#[cfg(test)]
mod ring;
#[cfg(test)]
mod runs;
#[cfg(test)]
mod sleeps;
#[cfg(test)]
mod star;
#[cfg(test)]
mod waking;
