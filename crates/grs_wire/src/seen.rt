//! What a report shows of a run.
use super::deck::{Event, Name};
use super::history::HistEntry;
use super::told::Told;
use grs_base::{List, Row, SysId, TaskId};

/// The names of a deck: of its systems, and for each system of its jobs and of its tasks, in order.
#[derive(Drop)]
pub struct Names {
    pub systems: List<Name>,
    pub jobs: List<List<Name>>,
    pub tasks: List<List<Name>>,
}

/// How a task stands at the end of a run.
#[derive(Clone, Copy, Debug, PartialEq, Eq)]
pub enum TaskEnd {
    /// It has ended, and was told so.
    Ended,
    /// Its system was removed before it ended.
    Removed,
    /// It is held until it is told control.
    Waits,
    /// Anything else: it could go on, or its request is on its way.
    Open,
}

/// What a run shows: its events, its history, what was told, the lists that are not empty, the counts of
/// hardware reserves by system and unit, the lock words, whether the complex is in star mode, and the end
/// of each task of the deck.
#[derive(Drop)]
pub struct Seen {
    pub events: List<Event>,
    pub hist: List<HistEntry>,
    pub told: List<Told>,
    pub queues: List<Row>,
    pub units: List<(SysId, u16, u32)>,
    pub words: List<u32>,
    pub star: bool,
    pub ended: List<(TaskId, TaskEnd)>,
}
