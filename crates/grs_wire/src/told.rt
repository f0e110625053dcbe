//! What tasks and desks are told.
ghost use Rattle.std.specs.Prelude.{◌≡◌, IfOk};

use grs_base::{Code, Copied, List, NoMemory, Row, SysId, TaskId, copy_all};
use std::alloc::Global;

/// The kind of line to which a code belongs. RESERVE counts as ENQ.
#[derive(Clone, Copy, Debug, PartialEq, Eq)]
pub enum Verb {
    Enq,
    Deq,
    Wait,
    Gqscan,
    Display,
}

/// How a command at a desk ended.
#[derive(Clone, Copy, Debug, PartialEq, Eq)]
pub enum Said {
    /// The complex changed to star mode.
    StarDone,
    /// It was in star mode already.
    StarAlready,
    /// The system was removed.
    VaryDone,
    /// There was no such system any more.
    VaryNoSuch,
}

/// One line that a system tells. `k` is the number of a line in its task, or in its system's desk, from 1.
#[derive(Drop)]
pub enum ToldLine {
    /// The code of line `k`. `part` is 0.
    Coded {
        task: TaskId,
        k: u32,
        part: u8,
        verb: Verb,
        code: Code,
    },
    /// The lists that line `k`, a display, showed.
    Shown {
        task: TaskId,
        k: u32,
        verb: Verb,
        code: Code,
        rows: List<Row>,
    },
    /// The event control block of line `k` is posted: the task has control.
    Post {
        task: TaskId,
        k: u32,
    },
    /// The task has ended with this code.
    Ended {
        task: TaskId,
        code: u16,
    },
    /// The command `k` of the desk is done.
    Desk {
        k: u32,
        said: Said,
    },
}

impl ToldLine {
    /// An equal line.
    pub fn copy(&self, alloc: Global) -> Result<ToldLine, NoMemory>
        ensures { IfOk result (λ line. line ≡ self.now) }
    {
        match self {
            ToldLine::Coded {
                task,
                k,
                part,
                verb,
                code,
            } => Ok(ToldLine::Coded {
                task: *task,
                k: *k,
                part: *part,
                verb: *verb,
                code: *code,
            }),
            ToldLine::Shown {
                task,
                k,
                verb,
                code,
                rows,
            } => Ok(ToldLine::Shown {
                task: *task,
                k: *k,
                verb: *verb,
                code: *code,
                rows: copy_all(alloc, rows.as_slice())?,
            }),
            ToldLine::Post { task, k } => Ok(ToldLine::Post { task: *task, k: *k }),
            ToldLine::Ended { task, code } => Ok(ToldLine::Ended {
                task: *task,
                code: *code,
            }),
            ToldLine::Desk { k, said } => Ok(ToldLine::Desk { k: *k, said: *said }),
        }
    }
}

impl Copied for ToldLine {
    fn copied(&self, alloc: Global) -> Result<ToldLine, NoMemory> {
        self.copy(alloc)
    }
}

/// A told line with the number of the event in which it was told, from 1.
#[derive(Drop)]
pub struct Told {
    pub event: u64,
    pub system: SysId,
    pub line: ToldLine,
}

impl Told {
    /// An equal value.
    pub fn copy(&self, alloc: Global) -> Result<Told, NoMemory>
        ensures { IfOk result (λ told. told ≡ self.now) }
    {
        Ok(Told {
            event: self.event,
            system: self.system,
            line: self.line.copy(alloc)?,
        })
    }
}

impl Copied for Told {
    fn copied(&self, alloc: Global) -> Result<Told, NoMemory> {
        self.copy(alloc)
    }
}
