//! What a deck says. Its form is this project's own; each line asks for what its macro or command asks for.
ghost use Rattle.std.specs.Prelude.{◌≡◌, IfOk};

use grs_base::{Copied, Line, List, Lists, NoMemory, SysId, TaskId, copy_all};
use std::alloc::Global;

/// The name of a system, a job or a task: its bytes.
pub type Name = List<u8>;

/// A task: its name and its lines.
#[derive(Drop)]
pub struct TaskDef {
    pub name: Name,
    pub lines: List<Line>,
}

/// A job: its name and its tasks, in order.
#[derive(Drop)]
pub struct JobDef {
    pub name: Name,
    pub tasks: List<TaskDef>,
}

/// What an operator commands. (z/OS MVS System Commands, "SETGRS" and "VARY GRS".)
#[derive(Clone, Copy, Debug, PartialEq, Eq)]
pub enum Order {
    /// SETGRS MODE=STAR: the complex changes to star mode.
    Star,
    /// VARY GRS(system),PURGE: this system is removed.
    Vary(SysId),
}

/// A command at a system's desk. `at` is about how many events the system makes before; nothing rests on it.
#[derive(Clone, Copy, Debug, PartialEq, Eq)]
pub struct Desk {
    pub at: u32,
    pub order: Order,
}

/// A system: its name, the commands of its desk, and its jobs, in order.
#[derive(Drop)]
pub struct SystemDef {
    pub name: Name,
    pub desk: List<Desk>,
    pub jobs: List<JobDef>,
}

/// What an event does.
#[derive(Clone, Copy, Debug, PartialEq, Eq)]
pub enum Choice {
    /// The task goes on.
    Task(TaskId),
    /// The system takes its turn at the authority message.
    Turn,
    /// The request of this task is sent to the manager of its lock entry.
    Send(TaskId),
    /// A mail is taken from the inbox.
    Take,
    /// The first held request is settled.
    Settle,
    /// A task of another system is told that it got control of a resource of this lock entry.
    Tell(u32),
    /// What the system has on record of this lock entry is sent to the entry's new manager.
    Part(u32),
    /// Interest in this lock entry is given up.
    Leave(u32),
    /// The complex changes to star mode.
    Switch,
    /// A system is removed.
    Purge(SysId),
    /// The system has nothing to do.
    Rest,
}

/// One atomic step of one system.
#[derive(Clone, Copy, Debug, PartialEq, Eq)]
pub struct Event {
    pub system: SysId,
    pub choice: Choice,
}

/// What a deck says: the mode at the start, the number of lock entries (1, 2, 4, 8, 16, 32 or 64), the
/// limit of concurrent requests of a task (1 to 4,096), the name lists, the systems in order, and the
/// schedule.
#[derive(Drop)]
pub struct Deck {
    pub star: bool,
    pub entries: u32,
    pub limit: u32,
    pub lists: Lists,
    pub systems: List<SystemDef>,
    pub events: List<Event>,
}

impl TaskDef {
    /// An equal task.
    pub fn copy(&self, alloc: Global) -> Result<TaskDef, NoMemory>
        ensures { IfOk result (λ def. def ≡ self.now) }
    {
        let name = self.name.copy(alloc)?;
        let lines = copy_all(alloc, self.lines.as_slice())?;
        Ok(TaskDef { name, lines })
    }
}

impl Copied for TaskDef {
    fn copied(&self, alloc: Global) -> Result<TaskDef, NoMemory> {
        self.copy(alloc)
    }
}

impl JobDef {
    /// An equal job.
    pub fn copy(&self, alloc: Global) -> Result<JobDef, NoMemory>
        ensures { IfOk result (λ def. def ≡ self.now) }
    {
        let name = self.name.copy(alloc)?;
        let tasks = copy_all(alloc, self.tasks.as_slice())?;
        Ok(JobDef { name, tasks })
    }
}

impl Copied for JobDef {
    fn copied(&self, alloc: Global) -> Result<JobDef, NoMemory> {
        self.copy(alloc)
    }
}

impl SystemDef {
    /// An equal system.
    pub fn copy(&self, alloc: Global) -> Result<SystemDef, NoMemory>
        ensures { IfOk result (λ def. def ≡ self.now) }
    {
        let name = self.name.copy(alloc)?;
        let desk = self.desk.copy(alloc)?;
        let jobs = copy_all(alloc, self.jobs.as_slice())?;
        Ok(SystemDef { name, desk, jobs })
    }
}

impl Copied for SystemDef {
    fn copied(&self, alloc: Global) -> Result<SystemDef, NoMemory> {
        self.copy(alloc)
    }
}

impl Deck {
    /// An equal deck.
    pub fn copy(&self, alloc: Global) -> Result<Deck, NoMemory>
        ensures { IfOk result (λ deck. deck ≡ self.now) }
    {
        let lists = self.lists.copy(alloc)?;
        let systems = copy_all(alloc, self.systems.as_slice())?;
        let events = self.events.copy(alloc)?;
        Ok(Deck {
            star: self.star,
            entries: self.entries,
            limit: self.limit,
            lists,
            systems,
            events,
        })
    }
}
