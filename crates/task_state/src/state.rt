//! How one task stands.
ghost use Rattle.std.specs.Prelude.{◌≡◌};
ghost use Rattle.task_state.specs.View.{is_sent};

use super::records::Records;
use grs_base::{Ctl, List, Res, Row};
use grs_wire::{Req, Verb};

/// A request of a task that stands in the list of a resource. `told` tells whether the task was told
/// control, `rank` its place among all requests of a lock entry (0 where nothing is ranked), `unit` the
/// device of a hardware reserve, `line` the number of the line that asked, from 1.
#[derive(Drop)]
pub struct Rec {
    pub res: Res,
    pub ctl: Ctl,
    pub rank: u64,
    pub told: bool,
    pub unit: Option<u16>,
    pub line: u32,
}

/// What a task does next.
#[derive(Drop)]
pub enum Phase {
    /// It takes its next line, or ends where there is none.
    Ready,
    /// Its request waits to be put into the message or sent.
    ToSend,
    /// Its request isn't answered yet.
    Sent,
    /// It waits for control of what its last line asked for.
    HeldAnswer,
    /// It waits at a WAIT line for control of this resource.
    HeldLine(Res),
    /// It releases what it has, and then ends with this code.
    Ending(u16),
    Ended,
}

impl Phase {
    /// Whether the task has sent a request that isn't answered yet.
    pub fn is_sent(&self) -> bool
        ensures { result ≡ is_sent self.now }
    {
        matches!(self, Phase::Sent)
    }
}

/// What line asks for looks: its kind, and how many slices of it are still to be looked at behind them.
#[derive(Clone, Copy, Debug, PartialEq, Eq)]
pub struct Showing {
    pub verb: Verb,
    pub left: u32,
}

/// A request that isn't answered yet: the device that its record will reserve, if it is to, and of looks the line that
/// asks for them.
#[derive(Drop)]
pub struct Asked {
    pub req: Req,
    pub unit: Option<u16>,
    pub showing: Option<Showing>,
}

/// A task: the number of lines that it has taken, its phase, its end code (0 at first), its requests on
/// record in the order in which they were queued, the request that isn't answered yet, and the rows of its
/// display so far.
#[derive(Drop)]
pub struct TaskState {
    pub line: u32,
    pub phase: Phase,
    pub code: u16,
    pub records: Records,
    pub outstanding: Option<Asked>,
    pub rows: List<Row>,
}
