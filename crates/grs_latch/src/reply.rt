//! What calls of latches are answered, who gets a latch by them, and what is shown of a latch.
use grs_base::{Ctl, List};

/// A request that waited and is granted.
#[derive(Clone, Copy, Debug, PartialEq, Eq)]
pub struct Grant {
    /// The place of its set in the order of making, from 0.
    pub set: u32,
    /// The number of its latch, from 0.
    pub latch: u32,
    /// Whose it is.
    pub requestor: u16,
}

/// What a call is answered.
#[derive(Drop)]
pub struct LatchReply {
    /// How it went, by the table of its call.
    pub code: u8,
    /// How many requests a purge took out; 0 for any other call.
    pub taken: u32,
    /// Who gets a latch by it, by latch and then in order of arrival.
    pub grants: List<Grant>,
}

/// A latch that has requests.
#[derive(Drop)]
pub struct LatchRow {
    /// The place of its set in the order of making, from 0.
    pub set: u32,
    /// Its number, from 0.
    pub latch: u32,
    /// Its requests in order of arrival: whose each is, and whether it is exclusive or shared.
    pub elems: List<(u16, Ctl)>,
    /// How many of them, from the first on, own it.
    pub owners: u32,
}
